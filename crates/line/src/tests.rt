//! Beats by a table that was worked out by hand.
use crate::{Cue, Line, QuietLine, Reply, ScriptLine, Status, Wait, play};
use std::test::Fail;

fn cue(wait: Wait, character: u8) -> Cue {
    Cue { wait, character }
}

fn status(fgi: bool, fgo: bool, outr: u8) -> Status {
    Status { fgi, fgo, outr }
}

fn reply(character: Option<u8>, printed: bool) -> Reply {
    Reply { character, printed }
}

#[test]
fn script_by_the_table(rt: HostRuntime) -> Result<(), Fail> {
    let cues = [cue(2, b'A'), cue(0, b'B')].to_vec(rt.alloc())?;
    let mut line = ScriptLine::new(cues, [0, 0].to_vec(rt.alloc())?);
    let statuses = [
        status(false, true, b'w'),
        status(true, false, b'x'),
        status(false, true, b'y'),
        status(true, false, b'y'),
        status(false, false, b'z'),
        status(false, false, b'z'),
    ];
    let expected = [
        reply(None, false),
        reply(None, true),
        reply(Some(b'A'), false),
        reply(None, true),
        reply(Some(b'B'), false),
        reply(None, false),
    ];
    let replies = line.play(&statuses, rt.alloc())?;
    assert!(rt; replies.as_slice() == expected.as_slice());
    assert!(rt; line.printed() == b"xy".as_slice());
    assert!(rt; line.remaining().is_empty());
    assert!(rt; line.into_paper().as_slice() == b"xy".as_slice());
    Ok(())
}

#[test]
fn count_stops_at_the_longest_wait(rt: HostRuntime) -> Result<(), Fail> {
    let cues = [cue(65535, b'A')].to_vec(rt.alloc())?;
    let mut line = ScriptLine::new(cues, Vec::new(rt.alloc()));
    for _ in 0..65534 {
        assert_eq!(rt; line.beat(status(false, true, 0)), reply(None, false));
    }
    for _ in 0..3 {
        assert_eq!(rt; line.beat(status(true, false, 0)), reply(None, false));
    }
    assert_eq!(rt; line.beat(status(false, true, 0)), reply(Some(b'A'), false));
    Ok(())
}

#[test]
fn paper_keeps_its_size(rt: HostRuntime) -> Result<(), Fail> {
    let cues = [cue(1, b'A'), cue(9, b'B')].to_vec(rt.alloc())?;
    let mut line = ScriptLine::new(cues, [b'-', b'-', b'-'].to_vec(rt.alloc())?);
    assert_eq!(rt;
        line.beat(status(false, false, b'a')),
        reply(Some(b'A'), true)
    );
    assert_eq!(rt; line.remaining().len(), 1);
    assert!(rt; line.into_paper().as_slice() == b"a--".as_slice());
    Ok(())
}

#[test]
fn quiet_in_any_state(rt: HostRuntime) -> Result<(), Fail> {
    let statuses = [
        status(false, true, b'a'),
        status(true, false, b'b'),
        status(false, false, b'c'),
    ];
    let replies = play(&mut QuietLine, &statuses, rt.alloc())?;
    let expected = [reply(None, false), reply(None, true), reply(None, true)];
    assert!(rt; replies.as_slice() == expected.as_slice());
    Ok(())
}
