//! What replies, refusals and ends look like, and the whole of a report.
use alp_base::{
    AccessList, Bytes, FileId, Name, OutOfMemory, OwnerRecord, Page, PageList, PageRef, Props,
    Stamp, TransId,
};
use alp_files::{Call, Cause, Ended, HeldProps, ListName, Refusal, Reply, What, Why};
use alp_journal::{Item, Mark, Sent};
use alp_report::{Held, Summary, put_line, put_summary};
use std::alloc::Global;
use std::test::Fail;

const TRANS: TransId = TransId {
    server: 1,
    epoch: 2,
    counter: 34,
};

const STAMP: Stamp = Stamp {
    ts: 567,
    trans: TRANS,
};

const FILE: FileId = FileId {
    server: 1,
    epoch: 2,
    counter: 3,
};

fn name(text: &[u8]) -> Result<Name, Fail> {
    Ok(Name::parse(text).ok_or("a name")?)
}

// Of no names, of one or of two.
fn list(alloc: Global, count: u8) -> Result<AccessList, Fail> {
    let mut names = Vec::new(alloc);
    if count > 0 {
        names.push(name(b"ann")?)?;
    }
    if count > 1 {
        names.push(name(b"World")?)?;
    }
    Ok(AccessList::new(names))
}

fn props(alloc: Global) -> Result<Props, Fail> {
    Ok(Props {
        owner: name(b"ann")?,
        name: name(b"a.txt")?,
        type_no: 7,
        create_time: 18446744073709551615,
        byte_length: 1000,
        size: 4,
        high_water: 2,
        read: list(alloc, 2)?,
        modify: list(alloc, 0)?,
    })
}

fn owner(alloc: Global) -> Result<OwnerRecord, Fail> {
    Ok(OwnerRecord {
        name: name(b"ann")?,
        quota: 10,
        charge: 4,
        create: list(alloc, 1)?,
    })
}

// What was handed for a call.
fn item(reply: Option<Reply>) -> Item {
    Item {
        line: 3,
        server: 1,
        mark: Mark::Own,
        sent: Sent::Call {
            client: 1,
            epoch: 2,
            number: 1,
            call: Call::Begin { seen: STAMP },
        },
        reply,
        place: None,
    }
}

// The line of a call that is answered so.
fn line_of(alloc: Global, reply: Reply) -> Result<Vec<u8>, OutOfMemory> {
    let items = vec![in alloc; item(Some(reply))]?;
    let mut text = Vec::new(alloc);
    put_line(&mut text, 3, &items)?;
    Ok(text)
}

// Whether the line is this text behind the number of the call's line.
fn is_line(alloc: Global, line: &[u8], text: &str) -> Result<bool, OutOfMemory> {
    let wanted = format!(in alloc; "3 {text}\n")?;
    Ok(line == wanted.as_bytes())
}

// Whether the reply is printed so, behind the number of its line.
fn prints(alloc: Global, reply: Reply, text: &str) -> Result<bool, OutOfMemory> {
    let line = line_of(alloc, reply)?;
    is_line(alloc, line.as_slice(), text)
}

// So where the memory is there.
fn is_printed(alloc: Global, reply: Reply, text: &str) -> bool {
    match prints(alloc, reply, text) {
        Ok(same) => same,
        Err(_fault) => false,
    }
}

fn replies_are_printed(alloc: Global) -> bool {
    let created = Reply::Created {
        file: FILE,
        open_no: 1,
    };
    is_printed(alloc, Reply::Welcome { epoch: 9 }, "ok")
        && is_printed(alloc, Reply::Joined, "ok")
        && is_printed(alloc, Reply::Plain, "ok")
        && is_printed(alloc, Reply::Begun { trans: TRANS }, "ok trans 1.2.34")
        && is_printed(alloc, created, "ok file 1.2.3 open 1")
        && is_printed(alloc, Reply::Opened { open_no: 12 }, "ok open 12")
        && is_printed(
            alloc,
            Reply::Committed { stamp: STAMP },
            "ok stamp 567 1.2.34",
        )
}

#[test]
fn replies(rt: HostRuntime) -> Result<(), Fail> {
    assert!(rt; replies_are_printed(rt.alloc()));
    Ok(())
}

static ENDS: [(Ended, &str); 4] = [
    (Ended::Running, "ok running"),
    (Ended::Committed { stamp: STAMP }, "ok committed 567 1.2.34"),
    (Ended::Aborted, "ok aborted"),
    (Ended::Unknown, "ok unknown"),
];

#[test]
fn outcomes(rt: HostRuntime) -> Result<(), Fail> {
    for (ended, text) in ENDS {
        assert!(rt; prints(rt.alloc(), Reply::Ended(ended), text)?, "{text}");
    }
    Ok(())
}

fn properties_are_printed(alloc: Global) -> Result<bool, Fail> {
    let file = Reply::Props(HeldProps::new(alloc, props(alloc)?)?);
    let holds = prints(
        alloc,
        file,
        "ok props owner ann name a.txt type 7 time 18446744073709551615 bytes 1000 size 4 high 2 read ann,World modify -",
    )?;
    Ok(holds)
}

fn owners_are_printed(alloc: Global) -> Result<bool, Fail> {
    let holds = prints(
        alloc,
        Reply::Owner(owner(alloc)?),
        "ok owner ann charge 4 quota 10 create ann",
    )?;
    Ok(holds)
}

#[test]
fn properties_and_owners(rt: HostRuntime) -> Result<(), Fail> {
    assert!(rt; properties_are_printed(rt.alloc())? && owners_are_printed(rt.alloc())?);
    Ok(())
}

// Pages of zeros, of texts, and one of which each byte is 255.
fn some_pages(alloc: Global) -> Result<PageList, Fail> {
    let mut pages = Vec::new(alloc);
    pages.push(PageRef::new(alloc, Page::zero())?)?;
    for text in ["-", "--", "hello", "50% of\0a~!\x1f\x7f"] {
        pages.push(PageRef::new(alloc, Page::beginning(text.as_bytes()))?)?;
    }
    pages.push(PageRef::new(alloc, Page::new([255; 512]))?)?;
    Ok(PageList::new(pages))
}

// The line of those pages.
fn page_line(alloc: Global) -> Result<Vec<u8>, Fail> {
    let mut line = Vec::from_slice(alloc, b"3 ok - %2d -- hello 50%25%20of%00a~!%1f%7f ")?;
    for _ in 0..512u32 {
        line.extend_from_slice(b"%ff")?;
    }
    line.extend_from_slice(b"\n")?;
    Ok(line)
}

fn pages_are_printed(alloc: Global) -> Result<bool, Fail> {
    let line = line_of(alloc, Reply::Pages(some_pages(alloc)?))?;
    let wanted = page_line(alloc)?;
    Ok(line.as_slice() == wanted.as_slice())
}

#[test]
fn pages(rt: HostRuntime) -> Result<(), Fail> {
    assert!(rt; pages_are_printed(rt.alloc())?);
    Ok(())
}

// Whether each of these refusals is printed so.
fn all_print(alloc: Global, refusals: &[(Refusal, &str)]) -> Result<bool, Fail> {
    for (refusal, text) in refusals {
        if !prints(alloc, Reply::Refused(*refusal), *text)? {
            return Ok(false);
        }
    }
    Ok(true)
}

static ALONE: [(Refusal, &str); 13] = [
    (Refusal::BadFrame, "refused 1"),
    (Refusal::UnknownTrans, "refused 3"),
    (Refusal::Finishing, "refused 4"),
    (Refusal::UnknownOpen, "refused 5"),
    (Refusal::UnknownFile, "refused 6"),
    (Refusal::UnknownOwner, "refused 7"),
    (Refusal::OwnerExists, "refused 8"),
    (Refusal::ReadOnlyOpen, "refused 9"),
    (Refusal::NotYet, "refused 18"),
    (Refusal::ReadFault, "refused 19"),
    (Refusal::Down, "refused 20"),
    (Refusal::OutOfMemory, "refused 21"),
    (Refusal::JournalFull, "refused 22"),
];

#[test]
fn refusals_with_numbers_alone(rt: HostRuntime) -> Result<(), Fail> {
    assert!(rt; all_print(rt.alloc(), &ALONE)?);
    Ok(())
}

static WITH_FIELDS: [(Refusal, &str); 11] = [
    (Refusal::StaleSession { epoch: 3 }, "refused 2 epoch 3"),
    (
        Refusal::AccessDenied {
            list: ListName::Read,
        },
        "refused 10 read",
    ),
    (
        Refusal::AccessDenied {
            list: ListName::Modify,
        },
        "refused 10 modify",
    ),
    (
        Refusal::AccessDenied {
            list: ListName::Create,
        },
        "refused 10 create",
    ),
    (
        Refusal::AccessDenied {
            list: ListName::Admin,
        },
        "refused 10 admin",
    ),
    (Refusal::NoSuchPage { size: 4 }, "refused 11 size 4"),
    (
        Refusal::QuotaExceeded {
            charge: 4,
            asked: 7,
            quota: 10,
        },
        "refused 12 charge 4 asked 7 quota 10",
    ),
    (
        Refusal::VolumeFull { left: 5, asked: 6 },
        "refused 13 left 5 asked 6",
    ),
    (
        Refusal::LogFull { room: 8, asked: 9 },
        "refused 14 room 8 asked 9",
    ),
    (
        Refusal::TooMany {
            what: What::Transactions,
            limit: 255,
        },
        "refused 15 Transactions 255",
    ),
    (
        Refusal::LockConflict { holder: TRANS },
        "refused 16 holder 1.2.34",
    ),
];

#[test]
fn refusals_with_fields(rt: HostRuntime) -> Result<(), Fail> {
    assert!(rt; all_print(rt.alloc(), &WITH_FIELDS)?);
    Ok(())
}

static CAUSES: [(Refusal, &str); 8] = [
    (
        Refusal::Aborted {
            cause: Cause::Asked,
        },
        "refused 17 Asked",
    ),
    (
        Refusal::Aborted {
            cause: Cause::TimedOut,
        },
        "refused 17 TimedOut",
    ),
    (
        Refusal::Aborted {
            cause: Cause::Voted {
                server: 2,
                why: Why::UnknownJoin,
            },
        },
        "refused 17 Voted 2 UnknownJoin",
    ),
    (
        Refusal::Aborted {
            cause: Cause::Voted {
                server: 2,
                why: Why::Waiting,
            },
        },
        "refused 17 Voted 2 Waiting",
    ),
    (
        Refusal::Aborted {
            cause: Cause::Voted {
                server: 2,
                why: Why::LogFull { room: 3, asked: 4 },
            },
        },
        "refused 17 Voted 2 LogFull 3 4",
    ),
    (
        Refusal::Aborted {
            cause: Cause::Voted {
                server: 2,
                why: Why::ReadFault,
            },
        },
        "refused 17 Voted 2 ReadFault",
    ),
    (
        Refusal::Aborted {
            cause: Cause::Voted {
                server: 2,
                why: Why::ClockEnd,
            },
        },
        "refused 17 Voted 2 ClockEnd",
    ),
    (
        Refusal::Aborted {
            cause: Cause::Lost { epoch: 5 },
        },
        "refused 17 Lost 5",
    ),
];

#[test]
fn causes_of_aborts(rt: HostRuntime) -> Result<(), Fail> {
    assert!(rt; all_print(rt.alloc(), &CAUSES)?);
    Ok(())
}

static TOO_MANY: [(Refusal, &str); 7] = [
    (
        Refusal::TooMany {
            what: What::Run,
            limit: 1,
        },
        "refused 15 Run 1",
    ),
    (
        Refusal::TooMany {
            what: What::Pages,
            limit: 1,
        },
        "refused 15 Pages 1",
    ),
    (
        Refusal::TooMany {
            what: What::Opens,
            limit: 1,
        },
        "refused 15 Opens 1",
    ),
    (
        Refusal::TooMany {
            what: What::Cells,
            limit: 1,
        },
        "refused 15 Cells 1",
    ),
    (
        Refusal::TooMany {
            what: What::Locks,
            limit: 1,
        },
        "refused 15 Locks 1",
    ),
    (
        Refusal::TooMany {
            what: What::Files,
            limit: 1,
        },
        "refused 15 Files 1",
    ),
    (
        Refusal::TooMany {
            what: What::Owners,
            limit: 1,
        },
        "refused 15 Owners 1",
    ),
];

#[test]
fn what_there_is_too_much_of(rt: HostRuntime) -> Result<(), Fail> {
    assert!(rt; all_print(rt.alloc(), &TOO_MANY)?);
    Ok(())
}

// Puts the line of what was handed for one call.
fn put_handed(text: &mut Vec<u8>, line: u32, alloc: Global, item: Item) -> Result<(), OutOfMemory> {
    let mut items = Vec::new(alloc);
    items.push(item)?;
    put_line(text, line, &items)
}

// Puts the lines of a call that was sent in a session that began, of one that got nothing, and of one that was not sent.
fn put_lines(alloc: Global, text: &mut Vec<u8>) -> Result<(), OutOfMemory> {
    let mut begun = Vec::new(alloc);
    begun.push(item(Some(Reply::Welcome { epoch: 2 })))?;
    begun.push(item(Some(Reply::Begun { trans: TRANS })))?;
    put_line(text, 3, &begun)?;
    put_handed(text, 4, alloc, item(None))?;
    put_line(text, 10, &[])
}

// A server whose one owner is charged for four pages.
fn held(alloc: Global, server: u8, clock: u64, files: u32) -> Result<Held, Fail> {
    let mut owners = Vec::new(alloc);
    owners.push(owner(alloc)?)?;
    Ok(Held {
        server,
        epoch: 2,
        clock,
        files,
        owners,
    })
}

fn a_run_is_printed(alloc: Global) -> Result<bool, Fail> {
    let mut text = Vec::new(alloc);
    put_lines(alloc, &mut text)?;
    let mut servers = Vec::new(alloc);
    servers.push(held(alloc, 1, 567, 1)?)?;
    let summary = Summary {
        servers: servers.as_slice(),
        committed: 8,
        aborted: 9,
    };
    put_summary(&mut text, &summary)?;
    let wanted =
        b"3 ok trans 1.2.34\n4 silent\n10 none\nserver 1 epoch 2 clock 567 files 1 pages 4\nowner 1 ann charge 4 quota 10\ncommitted 8 aborted 9\n";
    Ok(text.as_slice() == wanted.as_slice())
}

#[test]
fn a_run(rt: HostRuntime) -> Result<(), Fail> {
    assert!(rt; a_run_is_printed(rt.alloc())?);
    Ok(())
}

// What was handed for a line of bytes: nothing is silence.
fn raw_item(alloc: Global, reply: Option<Reply>) -> Result<Item, OutOfMemory> {
    Ok(Item {
        line: 5,
        server: 1,
        mark: Mark::Raw,
        sent: Sent::Bytes(Bytes::new(Vec::from_slice(alloc, b"\x00\x00")?)),
        reply,
        place: None,
    })
}

// What was handed for a line whose bytes spell a call.
fn raw_call(reply: Option<Reply>) -> Item {
    let mut item = item(reply);
    item.mark = Mark::Raw;
    item
}

fn raw_lines_are_printed(alloc: Global) -> Result<bool, Fail> {
    let mut text = Vec::new(alloc);
    let wrong = raw_item(alloc, Some(Reply::Refused(Refusal::BadFrame)))?;
    put_handed(&mut text, 5, alloc, wrong)?;
    let committed = Reply::Ended(Ended::Committed { stamp: STAMP });
    put_handed(&mut text, 6, alloc, raw_call(Some(committed)))?;
    put_handed(&mut text, 7, alloc, raw_call(None))?;
    let wanted = b"5 refused 1\n6 ok committed 567 1.2.34\n7 silent\n";
    Ok(text.as_slice() == wanted.as_slice())
}

// What a raw line is answered is printed as any reply: also where its bytes spell no request.
#[test]
fn raw_lines(rt: HostRuntime) -> Result<(), Fail> {
    assert!(rt; raw_lines_are_printed(rt.alloc())?);
    Ok(())
}

fn two_servers_are_printed(alloc: Global) -> Result<bool, Fail> {
    let mut servers = Vec::new(alloc);
    for server in 1..3u8 {
        servers.push(held(alloc, server, 2, 0)?)?;
    }
    let mut text = Vec::new(alloc);
    let summary = Summary {
        servers: servers.as_slice(),
        committed: 2,
        aborted: 0,
    };
    put_summary(&mut text, &summary)?;
    let wanted =
        b"server 1 epoch 2 clock 2 files 0 pages 4\nserver 2 epoch 2 clock 2 files 0 pages 4\nowner 1 ann charge 4 quota 10\nowner 2 ann charge 4 quota 10\ncommitted 2 aborted 0\n";
    Ok(text.as_slice() == wanted.as_slice())
}

// First come the lines of all servers, then those of their owners.
#[test]
fn servers_before_owners(rt: HostRuntime) -> Result<(), Fail> {
    assert!(rt; two_servers_are_printed(rt.alloc())?);
    Ok(())
}
