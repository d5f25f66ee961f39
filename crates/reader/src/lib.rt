//! Reads a script's bytes, and says what is written for them.
#![tactic(auto)]

ghost use Rattle.std.specs.Prelude.{◌≡◌, ℕ, ◌<◌, List, ◌++◌, length, take, IfOk, MatchResult, OnOk};
ghost use Rattle.reader.specs.Standings.{standing};
ghost use Rattle.reader.specs.Transcript.{Ends, Fed, Finished, PiecesJoin, Stopped, Takes, opening, output_line, written_back, written_of};

use lines::LineBuffer;
use script::{Answer, write};
use session::Session;
use std::alloc::{AllocError, Global};

/// The bytes of a too long line that are written back.
const ECHOED: usize = 4096;

/// Adds a text and a newline.
fn push_line(text: &mut Vec<u8>, line: &[u8]) -> Result<(), AllocError>
    ensures { OnOk result (text.new.items ≡ text.old.items ++ output_line line.now) }
{
    text.extend_from_slice(line)?;
    text.push(b'\n')?;
    Ok(())
}

/// The bytes of a line that are written back.
fn front(line: &[u8]) -> &[u8]
    ensures { result.now ≡ take 4096 line.now }
{
    &line[..ECHOED.min(line.len())]
}

/// What is written of a line itself.
fn written_back(heap: Global, echo: bool, line: &[u8]) -> Result<Vec<u8>, AllocError>
    ensures { IfOk result (λ text. text.items ≡ written_back echo line.now) }
{
    let mut text = Vec::new(heap);
    if echo {
        push_line(&mut text, front(line))?;
    }
    Ok(text)
}

/// Adds what is written of an answer, if there is one.
fn push_answer(text: &mut Vec<u8>, heap: Global, answer: &Option<Answer>) -> Result<(), AllocError>
    ensures { OnOk result (text.new.items ≡ text.old.items ++ written_of answer.now) }
{
    match answer {
        Some(answer) => push_line(text, write(heap, answer)?.as_bytes()),
        None => Ok(()),
    }
}

/// Reads a script: its allocator, its session, the line that is being read, and whether lines are written back.
#[derive(Drop)]
pub struct ScriptReader {
    heap: Global,
    session: Session,
    line: LineBuffer,
    echo: bool,
}

impl ScriptReader {
    /// A new session, and nothing read; with `echo`, each line is written above its answer.
    pub fn new(heap: Global, echo: bool) -> Result<ScriptReader, AllocError>
        ensures { IfOk result (λ reader. standing reader ≡ opening echo) }
    {
        let line = LineBuffer::new(heap)?;
        Ok(ScriptReader {
            heap,
            session: Session::new(),
            line,
            echo,
        })
    }

    /// Adds to `out` what is written for the line, and begins another.
    ///
    /// Where memory runs out, `out` is as it was.
    fn end_line(&mut self, out: &mut Vec<u8>) -> Result<(), AllocError>
        ensures { MatchResult result (λ _. ((output : List ℕ) × Ends (standing self.old) output (standing self.new) × (out.new.items ≡ out.old.items ++ output))) (λ _. out.new.items ≡ out.old.items) }
    {
        let line = self.line.as_slice();
        let mut text = written_back(self.heap, self.echo, line)?;
        let answer = self.session.line(self.heap, line)?;
        push_answer(&mut text, self.heap, &answer)?;
        out.extend_from_slice(text.as_slice())?;
        self.line.clear();
        Ok(())
    }

    /// Takes the next byte of the script, and adds to `out` what is written for it.
    ///
    /// Memory can run out only at a newline, and `out` is then as it was.
    fn take(&mut self, byte: u8, out: &mut Vec<u8>) -> Result<(), AllocError>
        ensures { MatchResult result (λ _. ((output : List ℕ) × Takes (standing self.old) byte output (standing self.new) × (out.new.items ≡ out.old.items ++ output))) (λ _. ((byte ≡ 10) × (out.new.items ≡ out.old.items))) }
    {
        if byte == b'\n' {
            return self.end_line(out);
        }
        self.line.push(byte);
        Ok(())
    }

    /// Takes bytes of the script, one after another.
    // Apart from `feed`, where the loop is no plainer: `feed` says in one line which bytes go on, and this how.
    fn take_each(&mut self, bytes: &[u8], out: &mut Vec<u8>) -> Result<(), AllocError>
        ensures { MatchResult result (λ _. Fed (standing self.old) bytes.now out.old.items out.new.items (standing self.new)) (λ _. Stopped (standing self.old) bytes.now out.old.items out.new.items) }
    {
        for &byte in bytes {
            self.take(byte, out)?;
        }
        Ok(())
    }

    /// Takes the next bytes of the script, and adds to `out` what is written for the lines that they end.
    ///
    /// Where memory runs out, `out` has what is written for the lines before that one.
    pub fn feed(&mut self, bytes: &[u8], out: &mut Vec<u8>) -> Result<(), AllocError>
        ensures { MatchResult result (λ _. Fed (standing self.old) bytes.now out.old.items out.new.items (standing self.new)) (λ _. Stopped (standing self.old) bytes.now out.old.items out.new.items) }
    {
        self.take_each(bytes, out)
    }

    /// The script is at its end: a last line without a newline is answered, if it has any byte.
    ///
    /// Where memory runs out, `out` is as it was.
    pub fn finish(&mut self, out: &mut Vec<u8>) -> Result<(), AllocError>
        ensures { MatchResult result (λ _. Finished (standing self.old) out.old.items out.new.items (standing self.new)) (λ _. ((0 < length (standing self.old).line) × (out.new.items ≡ out.old.items))) }
    {
        if self.line.as_slice().is_empty() {
            return Ok(());
        }
        self.end_line(out)
    }
}

/// A script may be fed in pieces of any length.
pub fn pieces_join()
    ensures { PiecesJoin }
{}
