//! A whole script, line after line through an interpreter.
ghost use Rattle.std.specs.Prelude.{◌≡◌, ◌+◌, ◌<◌, ◌≤◌, ◌^◌, OnOk, IfOk, length, string_bytes};
ghost use Rattle.std.specs.Str.Lines.{lines};
ghost use Rattle.scene_json.specs.Texts.{Adds};
ghost use Rattle.scene_streams.specs.Limits.{most_bytes};
ghost use Rattle.scene_interpreter.specs.Interpreter.{interpreter_reply, owner_of, reached};
ghost use Rattle.scene_interpreter.specs.Printed.{printed, printed_from};
ghost use Rattle.scene_app.specs.Reports.{no_bad_lines};
ghost use Rattle.scene_app.specs.Steps.{LinePlayed, noted};

use crate::report::Reports;
use scene_interpreter::{Interpreter, ScriptOwner};
use scene_script::first_line;
use scene_session::Performer;
use std::alloc::{AllocError, Global};

/// Plays a line, and notes it where it is bad.
fn play_line<O: ScriptOwner, P: Performer<O>>(
    performer: &P,
    interpreter: &mut Interpreter<O>,
    number: usize,
    bytes: &[u8],
    out: &mut String,
    reports: &mut Reports,
) -> Result<(), AllocError>
    requires { reports.old.count + 1 < 2 ^ 64 }
    ensures played { OnOk result (LinePlayed (string_bytes out.old) (string_bytes out.new) reports.old reports.new
        (reached O.state O.most interpreter.new) number (interpreter_reply (reached O.state O.most interpreter.old) bytes.now)) }
    ensures few { OnOk result (reports.new.count ≤ reports.old.count + 1) }
{
    match interpreter.line(performer, bytes, out) {
        Ok(bad) => reports.note(number, bad),
        Err(_) => Err(AllocError),
    }
}

/// Plays the lines of a script from its first.
fn play_lines<O: ScriptOwner, P: Performer<O>>(
    performer: &P,
    interpreter: &mut Interpreter<O>,
    script: &[u8],
    out: &mut String,
    reports: &mut Reports,
) -> Result<(), AllocError>
    requires none { reports.old ≡ no_bad_lines }
    requires room { length script.now ≤ most_bytes }
    ensures text { OnOk result (Adds out.old out.new ((printed_from 1 (reached O.state O.most interpreter.old) (lines script.now)).text)) }
    ensures bad { OnOk result (reports.new ≡ noted no_bad_lines (printed_from 1 (reached O.state O.most interpreter.old) (lines script.now)).bad) }
    ensures owner { OnOk result (owner_of (reached O.state O.most interpreter.new)
        ≡ (printed_from 1 (reached O.state O.most interpreter.old) (lines script.now)).owner) }
    ensures few { OnOk result (reports.new.count ≤ length script.now) }
{
    let mut rest = script;
    let mut number = 1usize;
    'lines: while !rest.is_empty() {
        let (bytes, after) = first_line(rest);
        play_line(performer, interpreter, number, bytes, out, reports)?;
        rest = after;
        number += 1;
    }
    Ok(())
}

/// Plays a script from its first line, adds what it prints, and notes its bad lines (docs/SCRIPTS.md, "Lines").
///
/// Want of memory ends it with an error, and then a part of the text may be there. Each line costs what it asks for. It
/// gives the sessions with their state, and the bad lines.
pub(crate) fn play_script<O: ScriptOwner, P: Performer<O>>(
    performer: &P,
    alloc: Global,
    script: &[u8],
    out: &mut String,
) -> Result<(O, Reports), AllocError>
    requires { length script.now ≤ most_bytes }
    ensures text { IfOk result (λ p. Adds out.old out.new ((printed script.now).text)) }
    ensures bad { IfOk result (λ p. p.1 ≡ noted no_bad_lines (printed script.now).bad) }
    ensures owner { IfOk result (λ p. O.state p.0 ≡ (printed script.now).owner) }
    ensures few { IfOk result (λ p. p.1.count ≤ length script.now) }
{
    let mut reports = Reports::new(alloc);
    let mut interpreter = Interpreter::new(alloc);
    play_lines(performer, &mut interpreter, script, out, &mut reports)?;
    Ok((interpreter.into_owner()?, reports))
}
