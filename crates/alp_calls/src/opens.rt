//! Changes of a part's opens.
ghost use Rattle.std.specs.Prelude.{◌≡◌, ◌<◌, ◌==◌, not, filter, vec_len, vec_capacity};
ghost use Rattle.alp_files.specs.Act.{without_open, without_file};
ghost use Rattle.alp_trans.specs.Parts.{own_of};
ghost use Rattle.alp_calls.specs.Parts.{own_with};

use crate::said::OpenChange;
use alp_base::FileId;
use alp_files::Open;
use alp_trans::Part;

fn close(opens: &mut Vec<Open>, number: u32)
    ensures { opens.new.items ≡ without_open opens.old.items number }
{
    opens.retain(|open| open.number != number);
}

fn leave(opens: &mut Vec<Open>, file: FileId)
    ensures { opens.new.items ≡ without_file opens.old.items file }
{
    opens.retain(|open| file != open.file);
}

/// The part's opens change so. There is room for one more.
pub(super) fn change_opens(part: &mut Part, change: OpenChange)
    requires { vec_len part.old.opens < vec_capacity part.old.opens }
    ensures own { own_of part.new ≡ own_with (own_of part.old) change }
    ensures intents { part.new.intents ≡ part.old.intents }
    ensures counts { part.new.counts ≡ part.old.counts }
{
    match change {
        OpenChange::Stay => {}
        OpenChange::Opened(open) => {
            part.last = open.number;
            part.opens.push_reserved(open);
        }
        OpenChange::Closed(number) => close(&mut part.opens, number),
        OpenChange::Left(file) => leave(&mut part.opens, file),
    }
}
