//! Properties on the heap.
ghost use Rattle.std.specs.Prelude.{◌≡◌, IfOk};
ghost use Rattle.alp_base.specs.contracts.cell.PropsPartialEq.TheImpl as props_eq;
ghost use Rattle.alp_base.specs.contracts.cell.PropsPartialEq.TheImpl.Laws.{laws-law};
ghost use Rattle.alp_base.specs.contracts.cell.PropsEq.TheImpl.Laws as props_equiv;

use alp_base::{OutOfMemory, Props};
use std::alloc::{AllocError, Global};
use std::marker::Model;

/// Properties on the heap, so that an enum of which they are one variant stays small; seen as the properties.
#[derive(Drop)]
pub struct HeldProps {
    props: Box<Props>,
}

impl Model for HeldProps {
    ghost use Rattle.alp_base.specs.declared.cell.Props.{Props};

    ghost Value = { Props };

    ghost view = { λ h. h.props.value };
}

impl HeldProps {
    pub fn new(alloc: Global, props: Props) -> Result<HeldProps, OutOfMemory>
        ensures { IfOk result (λ h. h ≡ props) }
    {
        let props = Box::new(alloc, props)?;
        Ok(HeldProps { props })
    }

    pub fn props(&self) -> &Props
        ensures { result.now ≡ self.now }
    {
        self.props.as_ref()
    }
}

impl Clone for HeldProps {
    ghost is_clone = { λ a b. b ≡ a };

    fn clone(&self) -> Result<HeldProps, AllocError> {
        let props = self.props.clone()?;
        Ok(HeldProps { props })
    }
}

impl PartialEq for HeldProps {
    ghost eq = { (props_eq.ghosts).eq };

    ghost laws = { laws-law };

    fn eq(&self, other: &HeldProps) -> bool {
        self.props() == other.props()
    }
}

impl Eq for HeldProps {
    ghost laws = { props_equiv.laws-law };
}
