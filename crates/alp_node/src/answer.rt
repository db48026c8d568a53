//! What an event comes to.
ghost use Rattle.std.specs.Prelude.{◌≡◌, None, Some, IfOk, OnErr, true};
ghost use Rattle.alp_calls.specs.Parts.{has_contents};
ghost use Rattle.alp_files.specs.declared.reply.Reply.TheVariants as reply;
ghost use Rattle.alp_node.specs.Asks.{is_made as is_made_said};
ghost use Rattle.alp_node.specs.Calls.{given_of};
ghost use Rattle.alp_node.specs.Steps.{told_answer, refused_answer};

use alp_base::{OutOfMemory, Stamp, TransId};
use alp_files::{Ended, Refusal, Reply};
use alp_journal::Acts;

/// A reply, once for the journal and once for the caller, and what took effect. No reply is silence.
#[derive(Drop)]
pub struct Answer {
    pub kept: Option<Reply>,
    pub handed: Option<Reply>,
    pub acts: Acts,
}

impl Answer {
    /// An answer with copies of a reply. It wants memory only where the reply tells contents of files.
    pub fn new(reply: &Reply, acts: Acts) -> Result<Answer, OutOfMemory>
        ensures ok { IfOk result (λ a. a ≡ told_answer (Some reply.now) acts) }
        ensures err { OnErr result (has_contents reply.now ≡ true) }
    {
        let kept = copy_of(reply)?;
        let handed = copy_of(reply)?;
        Ok(Answer {
            kept: Some(kept),
            handed: Some(handed),
            acts,
        })
    }

    pub fn silence(acts: Acts) -> Answer
        ensures { result ≡ told_answer None acts }
    {
        Answer {
            kept: None,
            handed: None,
            acts,
        }
    }

    pub fn begun(trans: TransId, acts: Acts) -> Answer
        ensures { result ≡ told_answer (Some (reply.Begun trans)) acts }
    {
        Answer {
            kept: Some(Reply::Begun { trans }),
            handed: Some(Reply::Begun { trans }),
            acts,
        }
    }

    pub fn committed(stamp: Stamp, acts: Acts) -> Answer
        ensures { result ≡ told_answer (Some (reply.Committed stamp)) acts }
    {
        Answer {
            kept: Some(Reply::Committed { stamp }),
            handed: Some(Reply::Committed { stamp }),
            acts,
        }
    }

    pub fn ended(ended: Ended, acts: Acts) -> Answer
        ensures { result ≡ told_answer (Some (reply.Ended ended)) acts }
    {
        Answer {
            kept: Some(Reply::Ended(ended)),
            handed: Some(Reply::Ended(ended)),
            acts,
        }
    }

    pub fn joined(acts: Acts) -> Answer
        ensures { result ≡ told_answer (Some reply.Joined) acts }
    {
        Answer {
            kept: Some(Reply::Joined),
            handed: Some(Reply::Joined),
            acts,
        }
    }

    pub fn refused(refusal: Refusal, acts: Acts) -> Answer
        ensures { result ≡ refused_answer refusal acts }
    {
        Answer {
            kept: Some(Reply::Refused(refusal)),
            handed: Some(Reply::Refused(refusal)),
            acts,
        }
    }
}

/// What a part gave for a call: the reply, which its session keeps, and the answer that tells it.
#[derive(Drop)]
pub struct Given {
    pub reply: Reply,
    pub answer: Answer,
}

impl Given {
    /// It wants memory only to copy a reply that tells contents of files.
    pub fn new(reply: Reply, acts: Acts) -> Result<Given, OutOfMemory>
        ensures ok { IfOk result (λ x. x ≡ given_of reply acts) }
        ensures err { OnErr result (has_contents reply ≡ true) }
    {
        let answer = Answer::new(&reply, acts)?;
        Ok(Given { reply, answer })
    }

    /// Whether a file was made.
    pub fn is_made(&self) -> bool
        ensures { result ≡ is_made_said self.now.reply }
    {
        matches!(&self.reply, Reply::Created { .. })
    }
}

fn copy_of(reply: &Reply) -> Result<Reply, OutOfMemory>
    ensures ok { IfOk result (λ copy. copy ≡ reply.now) }
    ensures err { OnErr result (has_contents reply.now ≡ true) }
{
    match reply {
        Reply::Pages(pages) => Ok(Reply::Pages(pages.clone()?)),
        Reply::Props(props) => Ok(Reply::Props(props.clone()?)),
        Reply::Owner(owner) => Ok(Reply::Owner(owner.clone()?)),
        Reply::Welcome { epoch } => Ok(Reply::Welcome { epoch: *epoch }),
        Reply::Begun { trans } => Ok(Reply::Begun { trans: *trans }),
        Reply::Joined => Ok(Reply::Joined),
        Reply::Created { file, open_no } => Ok(Reply::Created {
            file: *file,
            open_no: *open_no,
        }),
        Reply::Opened { open_no } => Ok(Reply::Opened { open_no: *open_no }),
        Reply::Plain => Ok(Reply::Plain),
        Reply::Committed { stamp } => Ok(Reply::Committed { stamp: *stamp }),
        Reply::Ended(ended) => Ok(Reply::Ended(*ended)),
        Reply::Refused(refusal) => Ok(Reply::Refused(*refusal)),
    }
}
