//! Tests of alp_rpc.
ghost use Rattle.std.specs.Prelude.{◌≡◌, IfOk, length};
ghost use Rattle.alp_rpc.specs.Frames.{IsSendable};

use alp_base::{Choice, Name, OutOfMemory, Page, PageList, PageRef, Run, TransId};
use alp_files::{Call, Ended, PropChange, Refusal, Reply};
use alp_rpc::*;
use std::alloc::Global;
use std::test::*;

// The frames of docs/FORMATS.md: a name, and the bytes in words. A word is bytes in digits, or a byte and how
// many times it stands there.
const REQUESTS: &[(&str, &str)] = &[
    ("Hello", "510200000000000000010103616e6e"),
    (
        "Begin",
        "51020000000100000002020000000000000005010000000100000009",
    ),
    ("Join", "5102000000010000000303010000000100000007"),
    (
        "CreateFile",
        "510200000001000000040401000000010000000203616e6e01410007000000000000000200000000000003e800000004000000020105576f726c6402054f776e657203626f6200",
    ),
    (
        "OpenFile",
        "5102000000010000000505010000000100000002010000000100000003010501",
    ),
    (
        "CloseFile",
        "510200000001000000060601000000010000000200000001",
    ),
    (
        "DeleteFile",
        "51020000000100000007070100000001000000020000000100",
    ),
    (
        "ReadPages",
        "5102000000010000000808010000000100000002000000010000000a030301",
    ),
    (
        "WritePages",
        "5102000000010000000909010000000100000002000000010000000a0202 41 00*511 42 00*511 00",
    ),
    (
        "LockPages",
        "5102000000010000000a0a010000000100000002000000010000000a030600",
    ),
    (
        "SetSize",
        "5102000000010000000b0b010000000100000002000000010000000c01",
    ),
    (
        "ReadProps",
        "5102000000010000000c0c01000000010000000200000001",
    ),
    (
        "WriteProps.Owner",
        "5102000000010000000d0d010000000100000002000000010103626f6200",
    ),
    (
        "WriteProps.Name",
        "5102000000010000000e0d010000000100000002000000010203422e3200",
    ),
    (
        "WriteProps.TypeNo",
        "5102000000010000000f0d0100000001000000020000000103010200",
    ),
    (
        "WriteProps.ByteLength",
        "510200000001000000100d0100000001000000020000000104000000000000100000",
    ),
    (
        "WriteProps.Read",
        "510200000001000000110d01000000010000000200000001050000",
    ),
    (
        "WriteProps.Modify",
        "510200000001000000120d01000000010000000200000001060403616e6e03626f6203657665054f776e657200",
    ),
    (
        "ReadOwner",
        "510200000001000000130e01000000010000000203616e6e00",
    ),
    (
        "MakeOwner",
        "510200000001000000140f01000000010000000203616e6e0000000a0205576f726c64054f776e657201",
    ),
    (
        "SetQuota",
        "510200000001000000151001000000010000000203616e6effffffff00",
    ),
    ("Finish", "510200000001000000161101000000010000000201"),
    ("Outcome", "5102000000010000001712010000000100000002"),
    ("Collect", "510200000001000000181300000016"),
];

const REPLIES: &[(&str, &str)] = &[
    ("Welcome", "500200000001000000010100000001"),
    ("Begun", "5002000000010000000202010000000100000002"),
    ("Joined", "5002000000010000000303"),
    (
        "Created",
        "500200000001000000040401000000010000000300000001",
    ),
    ("Opened", "500200000001000000050500000002"),
    ("Plain", "5002000000010000000606"),
    ("Pages", "500200000001000000080701 41 00*511"),
    (
        "Props",
        "5002000000010000000c0803616e6e01410007000000000000000200000000000003e800000004000000020105576f726c6402054f776e657203626f62",
    ),
    (
        "Owner",
        "500200000001000000130903616e6e0000000a000000040205576f726c64054f776e6572",
    ),
    (
        "Committed",
        "500200000001000000160a0000000000000006010000000100000002",
    ),
    ("Ended.Running", "500200000001000000170b00"),
    (
        "Ended.Committed",
        "500200000001000000170b014000000000000000010000000100000002",
    ),
    ("Ended.Aborted", "500200000001000000170b02"),
    ("Ended.Unknown", "500200000001000000170b03"),
    ("Refused.BadFrame", "500200000001000000180c01"),
    ("Refused.StaleSession", "500200000001000000180c0200000002"),
    ("Refused.UnknownTrans", "500200000001000000180c03"),
    ("Refused.Finishing", "500200000001000000180c04"),
    ("Refused.UnknownOpen", "500200000001000000180c05"),
    ("Refused.UnknownFile", "500200000001000000180c06"),
    ("Refused.UnknownOwner", "500200000001000000180c07"),
    ("Refused.OwnerExists", "500200000001000000180c08"),
    ("Refused.ReadOnlyOpen", "500200000001000000180c09"),
    ("Refused.AccessDenied", "500200000001000000180c0a03"),
    ("Refused.NoSuchPage", "500200000001000000180c0b00000004"),
    (
        "Refused.QuotaExceeded",
        "500200000001000000180c0c00000004000000070000000a",
    ),
    (
        "Refused.VolumeFull",
        "500200000001000000180c0d0000000300000004",
    ),
    (
        "Refused.LogFull",
        "500200000001000000180c0e0000000100000009",
    ),
    ("Refused.TooMany", "500200000001000000180c0f0500000040"),
    (
        "Refused.LockConflict",
        "500200000001000000180c10010000000100000007",
    ),
    ("Refused.Aborted", "500200000001000000180c1101"),
    ("Refused.Aborted", "500200000001000000180c1102"),
    (
        "Refused.Aborted",
        "500200000001000000180c110302030000000100000009",
    ),
    ("Refused.Aborted", "500200000001000000180c110400000002"),
    ("Refused.NotYet", "500200000001000000180c12"),
    ("Refused.ReadFault", "500200000001000000180c13"),
    ("Refused.Down", "500200000001000000180c14"),
    ("Refused.OutOfMemory", "500200000001000000180c15"),
    ("Refused.JournalFull", "500200000001000000180c16"),
];

fn digit(letter: u8) -> Option<u8> {
    match letter {
        b'0'..=b'9' => Some(letter - b'0'),
        b'a'..=b'f' => Some(letter - b'a' + 10),
        _ => None,
    }
}

fn add_word(out: &mut Vec<u8>, word: &str) -> Option<()> {
    let mut parts = word.split('*');
    let digits = parts.next()?;
    let mut times = 1usize;
    if let Some(count) = parts.next() {
        times = count.parse().ok()?;
    }
    for _ in 0..times {
        add_digits(out, digits.as_bytes())?;
    }
    Some(())
}

fn add_digits(out: &mut Vec<u8>, digits: &[u8]) -> Option<()> {
    for pair in digits.chunks(2) {
        let [high, low] = pair else {
            return None;
        };
        let byte = digit(*high)?.checked_mul(16)?;
        let byte = byte.checked_add(digit(*low)?)?;
        out.push(byte).ok()?;
    }
    Some(())
}

// The bytes in words, where no word is wrong.
fn bytes_of(alloc: Global, words: &str) -> Option<Vec<u8>> {
    let mut out = Vec::new(alloc);
    for word in words.split(' ') {
        add_word(&mut out, word)?;
    }
    Some(out)
}

fn name_of_call(call: &Call) -> &'static str {
    match call {
        Call::Hello { .. } => "Hello",
        Call::Begin { .. } => "Begin",
        Call::Join { .. } => "Join",
        Call::CreateFile { .. } => "CreateFile",
        Call::OpenFile { .. } => "OpenFile",
        Call::CloseFile { .. } => "CloseFile",
        Call::DeleteFile { .. } => "DeleteFile",
        Call::ReadPages { .. } => "ReadPages",
        Call::WritePages { .. } => "WritePages",
        Call::LockPages { .. } => "LockPages",
        Call::SetSize { .. } => "SetSize",
        Call::ReadProps { .. } => "ReadProps",
        Call::WriteProps { change, .. } => name_of_change(change),
        Call::ReadOwner { .. } => "ReadOwner",
        Call::MakeOwner { .. } => "MakeOwner",
        Call::SetQuota { .. } => "SetQuota",
        Call::Finish { .. } => "Finish",
        Call::Outcome { .. } => "Outcome",
        Call::Collect { .. } => "Collect",
    }
}

fn name_of_change(change: &PropChange) -> &'static str {
    match change {
        PropChange::Owner(_) => "WriteProps.Owner",
        PropChange::Name(_) => "WriteProps.Name",
        PropChange::TypeNo(_) => "WriteProps.TypeNo",
        PropChange::ByteLength(_) => "WriteProps.ByteLength",
        PropChange::Read(_) => "WriteProps.Read",
        PropChange::Modify(_) => "WriteProps.Modify",
    }
}

fn name_of_reply(reply: &Reply) -> &'static str {
    match reply {
        Reply::Welcome { .. } => "Welcome",
        Reply::Begun { .. } => "Begun",
        Reply::Joined => "Joined",
        Reply::Created { .. } => "Created",
        Reply::Opened { .. } => "Opened",
        Reply::Plain => "Plain",
        Reply::Pages(_) => "Pages",
        Reply::Props(_) => "Props",
        Reply::Owner(_) => "Owner",
        Reply::Committed { .. } => "Committed",
        Reply::Ended(Ended::Running) => "Ended.Running",
        Reply::Ended(Ended::Committed { .. }) => "Ended.Committed",
        Reply::Ended(Ended::Aborted) => "Ended.Aborted",
        Reply::Ended(Ended::Unknown) => "Ended.Unknown",
        Reply::Refused(refusal) => name_of_refusal(*refusal),
    }
}

fn name_of_refusal(refusal: Refusal) -> &'static str {
    match refusal {
        Refusal::BadFrame => "Refused.BadFrame",
        Refusal::StaleSession { .. } => "Refused.StaleSession",
        Refusal::UnknownTrans => "Refused.UnknownTrans",
        Refusal::Finishing => "Refused.Finishing",
        Refusal::UnknownOpen => "Refused.UnknownOpen",
        Refusal::UnknownFile => "Refused.UnknownFile",
        Refusal::UnknownOwner => "Refused.UnknownOwner",
        Refusal::OwnerExists => "Refused.OwnerExists",
        Refusal::ReadOnlyOpen => "Refused.ReadOnlyOpen",
        Refusal::AccessDenied { .. } => "Refused.AccessDenied",
        Refusal::NoSuchPage { .. } => "Refused.NoSuchPage",
        Refusal::QuotaExceeded { .. } => "Refused.QuotaExceeded",
        Refusal::VolumeFull { .. } => "Refused.VolumeFull",
        Refusal::LogFull { .. } => "Refused.LogFull",
        Refusal::TooMany { .. } => "Refused.TooMany",
        Refusal::LockConflict { .. } => "Refused.LockConflict",
        Refusal::Aborted { .. } => "Refused.Aborted",
        Refusal::NotYet => "Refused.NotYet",
        Refusal::ReadFault => "Refused.ReadFault",
        Refusal::Down => "Refused.Down",
        Refusal::OutOfMemory => "Refused.OutOfMemory",
        Refusal::JournalFull => "Refused.JournalFull",
    }
}

// Whether the bytes are a request of that name, and it is spelled as them.
fn is_request_of(alloc: Global, name: &str, bytes: &[u8]) -> Result<bool, OutOfMemory> {
    match decode_request(alloc, bytes)? {
        Some(found) => {
            let again = encode_request(alloc, &found)?;
            Ok(name_of_call(&found.call) == name && again.as_slice() == bytes)
        }
        None => Ok(false),
    }
}

#[test]
fn requests_there_and_back(rt: HostRuntime) -> Result<(), Fail> {
    for (name, words) in REQUESTS {
        let bytes = bytes_of(rt.alloc(), *words).ok_or("bytes")?;
        assert!(rt; is_request_of(rt.alloc(), *name, &bytes)?, "{name}");
    }
    Ok(())
}

fn is_reply_of(alloc: Global, name: &str, bytes: &[u8]) -> Result<bool, OutOfMemory> {
    match decode_reply(alloc, bytes)? {
        Some(found) => {
            let again = encode_reply(alloc, &found)?;
            Ok(name_of_reply(&found.reply) == name && again.as_slice() == bytes)
        }
        None => Ok(false),
    }
}

#[test]
fn replies_there_and_back(rt: HostRuntime) -> Result<(), Fail> {
    for (name, words) in REPLIES {
        let bytes = bytes_of(rt.alloc(), *words).ok_or("bytes")?;
        assert!(rt; is_reply_of(rt.alloc(), *name, &bytes)?, "{name}");
    }
    Ok(())
}

fn is_request(alloc: Global, bytes: &[u8]) -> Result<bool, OutOfMemory> {
    match decode_request(alloc, bytes)? {
        Some(_found) => Ok(true),
        None => Ok(false),
    }
}

fn is_reply(alloc: Global, bytes: &[u8]) -> Result<bool, OutOfMemory> {
    match decode_reply(alloc, bytes)? {
        Some(_found) => Ok(true),
        None => Ok(false),
    }
}

#[derive(Clone, Copy)]
enum Kind {
    Request,
    Reply,
}

fn is_frame(alloc: Global, kind: Kind, bytes: &[u8]) -> Result<bool, OutOfMemory> {
    match kind {
        Kind::Request => is_request(alloc, bytes),
        Kind::Reply => is_reply(alloc, bytes),
    }
}

// Whether no front of the bytes is a frame of that kind, nor the bytes with one more behind.
fn are_cuts_refused(alloc: Global, kind: Kind, words: &str) -> Result<bool, OutOfMemory> {
    let Some(mut bytes) = bytes_of(alloc, words) else {
        return Ok(false);
    };
    for count in 0..bytes.len() {
        if is_frame(alloc, kind, &bytes[..count])? {
            return Ok(false);
        }
    }
    bytes.push(0)?;
    Ok(!is_frame(alloc, kind, bytes.as_slice())?)
}

#[test]
fn no_front_is_a_frame(rt: HostRuntime) -> Result<(), Fail> {
    for (name, words) in REQUESTS {
        assert!(rt;
            are_cuts_refused(rt.alloc(), Kind::Request, *words)?,
            "{name}"
        );
    }
    for (name, words) in REPLIES {
        assert!(rt;
            are_cuts_refused(rt.alloc(), Kind::Reply, *words)?,
            "{name}"
        );
    }
    Ok(())
}

// What bytes are whose tag was changed.
#[derive(Clone, Copy, PartialEq)]
enum Retagged {
    NoFrame,
    Another,
    Wrong,
}

// Whether what is there is another frame, and it is spelled as its bytes.
fn other(is_same: bool, is_spelled: bool) -> Retagged {
    if is_same || !is_spelled {
        Retagged::Wrong
    } else {
        Retagged::Another
    }
}

fn retagged_request(alloc: Global, given: &Request, bytes: &[u8]) -> Result<Retagged, OutOfMemory> {
    match decode_request(alloc, bytes)? {
        Some(found) => {
            let again = encode_request(alloc, &found)?;
            Ok(other(found == *given, again.as_slice() == bytes))
        }
        None => Ok(Retagged::NoFrame),
    }
}

fn retagged_reply(
    alloc: Global,
    given: &ReplyFrame,
    bytes: &[u8],
) -> Result<Retagged, OutOfMemory> {
    match decode_reply(alloc, bytes)? {
        Some(found) => {
            let again = encode_reply(alloc, &found)?;
            Ok(other(found == *given, again.as_slice() == bytes))
        }
        None => Ok(Retagged::NoFrame),
    }
}

fn with_tag_changed(alloc: Global, bytes: &[u8], change: u8) -> Result<Vec<u8>, OutOfMemory> {
    let mut changed = Vec::from_slice(alloc, bytes)?;
    if let Some(tag) = changed.get_mut(10) {
        *tag ^= change;
    }
    Ok(changed)
}

// How many other tags make a request of the bytes, or none where one of them is wrong.
fn other_requests(
    alloc: Global,
    given: &Request,
    bytes: &[u8],
) -> Result<Option<u32>, OutOfMemory> {
    let mut others = 0u32;
    for change in 1..=255u8 {
        let changed = with_tag_changed(alloc, bytes, change)?;
        match retagged_request(alloc, given, changed.as_slice())? {
            Retagged::NoFrame => {}
            Retagged::Another => others = others.saturating_add(1),
            Retagged::Wrong => return Ok(None),
        }
    }
    Ok(Some(others))
}

fn other_replies(
    alloc: Global,
    given: &ReplyFrame,
    bytes: &[u8],
) -> Result<Option<u32>, OutOfMemory> {
    let mut others = 0u32;
    for change in 1..=255u8 {
        let changed = with_tag_changed(alloc, bytes, change)?;
        match retagged_reply(alloc, given, changed.as_slice())? {
            Retagged::NoFrame => {}
            Retagged::Another => others = others.saturating_add(1),
            Retagged::Wrong => return Ok(None),
        }
    }
    Ok(Some(others))
}

fn retags_request(alloc: Global, words: &str) -> Result<Option<u32>, OutOfMemory> {
    let Some(bytes) = bytes_of(alloc, words) else {
        return Ok(None);
    };
    match decode_request(alloc, bytes.as_slice())? {
        Some(given) => other_requests(alloc, &given, bytes.as_slice()),
        None => Ok(None),
    }
}

fn retags_reply(alloc: Global, words: &str) -> Result<Option<u32>, OutOfMemory> {
    let Some(bytes) = bytes_of(alloc, words) else {
        return Ok(None);
    };
    match decode_reply(alloc, bytes.as_slice())? {
        Some(given) => other_replies(alloc, &given, bytes.as_slice()),
        None => Ok(None),
    }
}

/// With another tag the bytes are no frame, or just those of another one.
#[test]
fn tags_tell_frames_apart(rt: HostRuntime) -> Result<(), Fail> {
    for (name, words) in REQUESTS {
        let others = retags_request(rt.alloc(), *words)?.ok_or("another request")?;
        // A join and an outcome have the same fields.
        assert!(rt; *name != "Join" || others > 0, "{name}");
    }
    for (name, words) in REPLIES {
        let others = retags_reply(rt.alloc(), *words)?.ok_or("another reply")?;
        // So have a welcome and an open.
        assert!(rt; *name != "Welcome" || others > 0, "{name}");
    }
    Ok(())
}

fn is_request_spelled(alloc: Global, request: &Request, words: &str) -> Result<bool, OutOfMemory>
    requires { IsSendable request.now }
{
    let bytes = encode_request(alloc, request)?;
    let Some(want) = bytes_of(alloc, words) else {
        return Ok(false);
    };
    Ok(bytes.as_slice() == want.as_slice())
}

fn is_hello_spelled(alloc: Global) -> Result<bool, OutOfMemory> {
    let hello = Request {
        client: 2,
        epoch: 0,
        number: 1,
        call: Call::Hello {
            name: Name::spelled(b"ann"),
        },
    };
    is_request_spelled(alloc, &hello, "510200000000000000010103616e6e")
}

fn is_welcome_spelled(alloc: Global) -> Result<bool, OutOfMemory> {
    let welcome = ReplyFrame {
        client: 2,
        epoch: 1,
        number: 1,
        reply: Reply::Welcome { epoch: 1 },
    };
    let bytes = encode_reply(alloc, &welcome)?;
    let Some(want) = bytes_of(alloc, "500200000001000000010100000001") else {
        return Ok(false);
    };
    Ok(bytes.as_slice() == want.as_slice())
}

#[test]
fn frames_as_built(rt: HostRuntime) -> Result<(), Fail> {
    assert!(rt; is_hello_spelled(rt.alloc())?);
    assert!(rt; is_welcome_spelled(rt.alloc())?);
    Ok(())
}

fn one_page(alloc: Global) -> Result<PageList, OutOfMemory>
    ensures { IfOk result (λ pages. length pages ≡ 1) }
{
    let shared = PageRef::new(alloc, Page::beginning(b"A"))?;
    let mut pages = Vec::new(alloc);
    pages.push(shared)?;
    Ok(PageList::new(pages))
}

fn is_request_read(alloc: Global, request: &Request, words: &str) -> Result<bool, OutOfMemory> {
    let Some(bytes) = bytes_of(alloc, words) else {
        return Ok(false);
    };
    match decode_request(alloc, bytes.as_slice())? {
        Some(found) => Ok(found == *request),
        None => Ok(false),
    }
}

const WRITE: &str = "5110000000010000000909 010000000100000002 00000001 0000000a01 01 41 00*511 01";

fn is_write_spelled(alloc: Global) -> Result<bool, OutOfMemory> {
    let pages = one_page(alloc)?;
    let write = Request {
        client: 16,
        epoch: 1,
        number: 9,
        call: Call::WritePages {
            trans: TransId {
                server: 1,
                epoch: 1,
                counter: 2,
            },
            open_no: 1,
            run: Run {
                first: 10,
                count: 1,
            },
            pages,
            choice: Choice::Wait,
        },
    };
    Ok(is_request_spelled(alloc, &write, WRITE)? && is_request_read(alloc, &write, WRITE)?)
}

#[test]
fn a_write_as_built(rt: HostRuntime) -> Result<(), Fail> {
    assert!(rt; is_write_spelled(rt.alloc())?);
    Ok(())
}
