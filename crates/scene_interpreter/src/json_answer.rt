//! The answers to lines as JSON.
ghost use Rattle.std.specs.Prelude.{ℕ, List, OnOk};
ghost use Rattle.serde_json.specs.Written.{compact_text};
ghost use Rattle.scene_json.specs.Texts.{Adds};
ghost use Rattle.scene_session.specs.Calls.{told};
ghost use Rattle.scene_interpreter.specs.Answer.{said_of};
ghost use Rattle.scene_interpreter.specs.JsonAnswer.{answer_json, bad_json, history_json, json_text, made_json, mark_json, plain_json, reply_json};

use crate::answer::LineAnswer;
use scene_json::write_json_text;
use scene_json_forms::write_entities;
use scene_kinds::{Entity, Schema};
use scene_print::{write_json_fault, write_json_listed, write_json_refused};
use scene_session::Reply;
use scene_undo::Cursor;
use std::alloc::{AllocError, Global};

/// Adds what a frame made: the entities that it spawned.
fn write_made(out: &mut String, entities: &[Entity]) -> Result<(), AllocError>
    ensures { OnOk result (Adds out.old out.new (compact_text (made_json entities.now))) }
{
    out.push_str("{\"answer\":\"done\",\"entities\":")?;
    write_entities(out, entities)?;
    out.push_str("}")
}

/// Adds what a call came to.
#[tactic(auto, using(crate::proofs::JsonLaws::undone_is, crate::proofs::JsonLaws::redone_is))]
fn write_reply(out: &mut String, reply: &Reply) -> Result<(), AllocError>
    ensures { OnOk result (Adds out.old out.new (compact_text (reply_json (told reply.now)))) }
{
    match reply {
        Reply::Done(entities) => write_made(out, entities.as_slice()),
        Reply::Undone => out.push_str("{\"answer\":\"undone\"}"),
        Reply::Redone => out.push_str("{\"answer\":\"redone\"}"),
        Reply::Refused(refusal) => write_json_refused(out, *refusal),
    }
}

/// Adds a cursor.
fn write_mark(out: &mut String, cursor: Cursor) -> Result<(), AllocError>
    ensures { OnOk result (Adds out.old out.new (compact_text (mark_json cursor))) }
{
    Ok(write!(
        out,
        "{{\"answer\":\"mark\",\"rewinds\":{},\"tick\":{}}}",
        cursor.rewinds, cursor.tick
    )?)
}

/// Adds how many calls there were.
fn write_history(out: &mut String, count: u64) -> Result<(), AllocError>
    ensures { OnOk result (Adds out.old out.new (compact_text (history_json count))) }
{
    Ok(write!(out, "{{\"answer\":\"history\",\"calls\":{count}}}")?)
}

/// Adds a text that is no JSON.
fn write_plain(alloc: Global, out: &mut String, text: &str) -> Result<(), AllocError>
    ensures { OnOk result (Adds out.old out.new (compact_text (plain_json text.now))) }
{
    out.push_str("{\"answer\":\"text\",\"text\":")?;
    write_json_text(alloc, out, text)?;
    out.push_str("}")
}

/// Adds the words that say why a line is bad.
fn write_bad(alloc: Global, out: &mut String, words: &str) -> Result<(), AllocError>
    ensures { OnOk result (Adds out.old out.new (compact_text (bad_json words.now))) }
{
    out.push_str("{\"answer\":\"bad\",\"reason\":")?;
    write_json_text(alloc, out, words)?;
    out.push_str("}")
}

impl LineAnswer {
    /// The words that say why the line is bad, where it is.
    fn bad_words(&self, alloc: Global) -> Result<String, AllocError> {
        match self {
            LineAnswer::Bad(reason) => format!(in alloc; "{reason}"),
            _ => Ok(String::new(alloc)),
        }
    }

    /// Adds the object of the answer, where these words say why the line is bad.
    #[tactic(auto, using(crate::proofs::JsonLaws::nothing_is, crate::proofs::JsonLaws::ok_is, crate::proofs::JsonLaws::queued_is))]
    fn write_object(
        &self,
        alloc: Global,
        schema: &Schema,
        words: &str,
        out: &mut String,
    ) -> Result<(), AllocError>
        ensures { OnOk result (Adds out.old out.new (compact_text (answer_json schema.now words.now (said_of self.now)))) }
    {
        match self {
            LineAnswer::Nothing => out.push_str("{\"answer\":\"nothing\"}"),
            LineAnswer::Taken => out.push_str("{\"answer\":\"ok\"}"),
            LineAnswer::Queued => out.push_str("{\"answer\":\"queued\"}"),
            LineAnswer::Replied(reply) => write_reply(out, reply),
            LineAnswer::Fault(fault) => write_json_fault(alloc, out, fault),
            LineAnswer::Marked(cursor) => write_mark(out, *cursor),
            LineAnswer::Counted(count) => write_history(out, *count),
            LineAnswer::Text(text) => write_plain(alloc, out, text.as_str()),
            LineAnswer::Changed(cells) => {
                write_json_listed(alloc, out, "changed", schema, cells.as_slice())
            }
            LineAnswer::Added(cells) => write_json_listed(
                alloc,
                out,
                "added",
                schema,
                cells.as_slice(),
            ),
            LineAnswer::Bad(_) => write_bad(alloc, out, words),
        }
    }

    /// Adds the answer as one line of JSON (docs/SHELL.md, "JSON"), where these are the kinds. A text stands in it as
    /// a string: `Interpreter::line_json` asks for the JSON of what a line shows instead. Why a line is bad stands in
    /// the words of `BadLine`, of which the contract says nothing. It costs the text. An error only where no memory was
    /// found; a part may be added then.
    pub fn write_json(
        &self,
        alloc: Global,
        schema: &Schema,
        out: &mut String,
    ) -> Result<(), AllocError>
        ensures { OnOk result ((words : List ℕ)
            × (Adds out.old out.new (json_text schema.now words (said_of self.now)))) }
    {
        let words = self.bad_words(alloc)?;
        self.write_object(alloc, schema, words.as_str(), out)?;
        out.push_str("\n")
    }
}
