//! The laws of the forms of fields, as contracts.
ghost use Rattle.std.specs.Prelude.{ℕ};
ghost use Rattle.alp_fields.specs.Forms.{IsForm, SpellsOnce, repeated, bytes_of, u8 as byte, u16 as short, u32 as word, u64 as long};
ghost use Rattle.alp_fields.specs.Fields.{file_id, trans_id, join_no, stamp, run, choice, access, flag, name, list, page, pages, name_field, list_field, key, resource};

/// What is spelled is read back whatever follows it, and what is read was so spelled.
pub fn fields_are_forms()
    ensures byte { IsForm byte }
    ensures short { IsForm short }
    ensures word { IsForm word }
    ensures long { IsForm long }
    ensures file_id { IsForm file_id }
    ensures trans_id { IsForm trans_id }
    ensures join_no { IsForm join_no }
    ensures stamp { IsForm stamp }
    ensures run { IsForm run }
    ensures choice { IsForm choice }
    ensures access { IsForm access }
    ensures flag { IsForm flag }
{}

/// The same of names, lists, pages, keys and resources, and of so many bytes.
pub fn longer_fields_are_forms()
    ensures bytes { (n : ℕ) → IsForm (bytes_of n) }
    ensures name { IsForm name }
    ensures list { IsForm list }
    ensures page { IsForm page }
    ensures pages { IsForm pages }
    ensures name_field { IsForm name_field }
    ensures list_field { IsForm list_field }
    ensures key { IsForm key }
    ensures resource { IsForm resource }
    ensures names { (n : ℕ) → IsForm (repeated name n) }
{}

/// A key has one spelling, which no other key has and which begins no other key's.
pub fn keys_have_one_spelling()
    ensures { SpellsOnce key }
{}
