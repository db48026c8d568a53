//! Changes of properties alone.
ghost use Rattle.std.specs.Prelude.{◌≡◌, ◌≤◌, [], ◌∷◌, IfOk, None};
ghost use Rattle.alp_base.specs.declared.key.Key.TheVariants as key;
ghost use Rattle.alp_base.specs.declared.lists.TheConstants.{PAGES_PER_FILE};
ghost use Rattle.alp_base.specs.declared.cell.Cell.TheVariants as cell;
ghost use Rattle.alp_files.specs.declared.reply.Reply.TheVariants as reply;
ghost use Rattle.alp_files.specs.Act.{Own, replied, id_in};
ghost use Rattle.alp_files.specs.Edits.{Put};
ghost use Rattle.alp_files.specs.Reading.{TellsPages};
ghost use Rattle.alp_calls.specs.Opened.{OpensOnly};
ghost use Rattle.alp_calls.specs.Parts.{GivesNone, IsProper, answer_of, reply_of, opens_in};
ghost use Rattle.alp_trans.specs.declared.part.Part.{Part as APart};

use crate::said::{Effect, OpenChange, Said};
use alp_base::{Cell, FileId, Key, OutOfMemory, Props};
use alp_files::Reply;
use std::alloc::Global;

/// The leader of a file is put, and nothing else.
pub(super) fn put_leader(alloc: Global, file: FileId, props: Props) -> Result<Said, OutOfMemory>
    requires { props.size ≤ PAGES_PER_FILE }
    ensures right { IfOk result (λ s. (own : Own) → answer_of own s ≡ replied own reply.Plain (Put (key.Leader file) (cell.Leader props) ∷ [])) }
    ensures id { IfOk result (λ s. GivesNone (reply_of s)) }
    ensures proper { IfOk result (λ s. (p : APart) → IsProper p s) }
    ensures opens { IfOk result (λ s. OpensOnly (id_in (reply_of s)) (opens_in s)) }
    ensures pages { IfOk result (λ s. TellsPages None (reply_of s)) }
{
    let puts = vec![in alloc; (Key::Leader(file), Cell::Leader(props))]?;
    Ok(Said::Done {
        reply: Reply::Plain,
        effect: Effect {
            gone: None,
            puts,
            opens: OpenChange::Stay,
        },
    })
}
