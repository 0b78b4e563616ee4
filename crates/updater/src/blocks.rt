//! What readers answered, as text.
ghost use Rattle.std.specs.Prelude.{◌≡◌, ◌++◌, map, IfOk, OnOk};
ghost use Rattle.std.specs.String.{string_bytes};
ghost use Rattle.updater.specs.Blocks.{given_blocks, given_text};
ghost use Rattle.run_promise.specs.Blocks.{head_line, rounds_text};

use crate::answers::push_found;
use osm_base::OutOfMemory;
use reader_rounds::Rounds;
use std::alloc::Global;
use table_versions::{Answer, Answers};

/// The blocks of readers, which are numbered from 1.
pub fn blocks_text(alloc: Global, blocks: &[Rounds]) -> Result<String, OutOfMemory>
    ensures text { IfOk result (λ text. string_bytes text ≡ given_blocks 1 blocks.now) }
{
    let mut out = String::new(alloc);
    let mut reader = 0;
    for rounds in blocks {
        reader += 1;
        push_rounds(&mut out, reader, rounds.as_slice())?;
    }
    Ok(out)
}

/// Appends the rounds of a reader, which are numbered from 1.
fn push_rounds(out: &mut String, reader: u64, rounds: &[Answers]) -> Result<(), OutOfMemory>
    ensures text { OnOk result (string_bytes out.new ≡ string_bytes out.old ++ rounds_text reader 1 (map given_text rounds.now)) }
{
    let mut round = 0;
    for answers in rounds {
        round += 1;
        push_head(out, reader, round)?;
        push_answers(out, answers.as_slice())?;
    }
    Ok(())
}

/// Appends the line before a round.
fn push_head(out: &mut String, reader: u64, round: u64) -> Result<(), OutOfMemory>
    ensures text { OnOk result (string_bytes out.new ≡ string_bytes out.old ++ head_line reader round) }
{
    let mut first = itoa::Buffer::new();
    let mut second = itoa::Buffer::new();
    out.push_str("reader ")?;
    out.push_str(first.format(reader))?;
    out.push_str(" round ")?;
    out.push_str(second.format(round))?;
    out.push_str("\n")?;
    Ok(())
}

/// Appends the answers of a round.
fn push_answers(out: &mut String, answers: &[Answer]) -> Result<(), OutOfMemory>
    ensures text { OnOk result (string_bytes out.new ≡ string_bytes out.old ++ given_text answers.now) }
{
    for given in answers {
        push_found(out, given.version, &given.found)?;
    }
    Ok(())
}
