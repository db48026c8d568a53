//! The law of refusals, as a contract.
ghost use Rattle.alp_fields.specs.Forms.{IsForm};
ghost use Rattle.alp_forms.specs.Refusals.{refusal};

/// What is spelled of a refusal is read back whatever follows it, and what is read was so spelled.
pub fn refusals_are_a_form()
    ensures { IsForm refusal }
{}
