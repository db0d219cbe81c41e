ghost use Rattle.std.specs.Prelude.{◌≡◌, ◌≢◌, ◌↔◌, ◌<◌, ◌≤◌, ◌+◌, ◌-◌, ◌++◌, ◌⊎◌, [], Err, IfErr, IfOk, IfSome, IsTrue, Ok, OnOk, length, vec_len, true, false};
ghost use Rattle.std.specs.Io.KnownBytes.{IsAtEnd, Keeps};
ghost use Rattle.std.specs.List.{after_first, before_first, position, position_or_len};
ghost use Rattle.keep_lines.specs.Line.{longest_line};
ghost use Rattle.keep_lines.specs.declared.mistake.Mistake.{Mistake};
ghost use Rattle.keep_lines.specs.declared.mistake.Mistake.TheVariants.{TooLong};
ghost use Rattle.keep_script.specs.Line.{HasLineEnd, is_line_end, longest_script};

use crate::flushing::flush;
use crate::status::Stop;
use keep_lines::Mistake;
use std::alloc::{AllocError, Global};
use std::io::{ErrorKind, Read, Write};

/// How many bytes a run reads, and how often in a row it is interrupted in a read.
const MAX_READ: usize = 67_108_864;
/// How many bytes a line has before its end.
const MAX_LINE: usize = 1_048_576;
/// How many bytes it asks for at once.
const CHUNK: usize = 16_384;

const LINE_END: u8 = b'\n';

/// The lines of a script, from a reader that is asked for many bytes at once.
#[derive(Drop)]
pub(crate) struct Input {
    alloc: Global,
    /// What the last read gave.
    chunk: Vec<u8>,
    /// How many bytes of that are used.
    used: usize,
    bytes_left: usize,
    ghost in_chunk: { used ≤ vec_len chunk },
}

/// What a script goes on with.
#[derive(Drop)]
pub(crate) enum Piece {
    /// A line whose end was taken too.
    Line(Vec<u8>),
    /// All that is left, where no line has an end. It may be nothing.
    Last(Vec<u8>),
}

impl Input {
    ghost use Rattle.keep_script.specs.Input.{EndsReading, LosesPiece, Takes, ahead_of, bytes_of, ends_line, left_of, size_of, unread_of};

    /// An input that has read nothing.
    pub fn new(alloc: Global) -> Result<Input, AllocError>
        ensures unread { IfOk result (λ input. unread_of input ≡ []) }
        ensures ahead { IfOk result (λ input. ahead_of input ≡ longest_script) }
    {
        Ok(Input {
            alloc,
            chunk: Vec::with_capacity(alloc, CHUNK)?,
            used: 0,
            bytes_left: MAX_READ,
        })
    }

    /// The next line, or what is left where no more line has an end. What was answered is handed
    /// on before each read.
    ///
    /// A line that is too long is `BadLine`. After an error the input is not to be used again.
    pub fn next_line<R: Read, W: Write>(
        &mut self,
        reader: &mut R,
        writer: &mut W,
    ) -> Result<Piece, Stop>
        ensures taken { IfOk result (λ piece. Takes
            (left_of self.old (R.remaining reader.old)) (left_of self.new (R.remaining reader.new)) piece) }
        ensures short { IfOk result (λ piece. length (bytes_of piece) ≤ longest_line) }
        ensures spent { IfOk result (λ piece. ahead_of self.new + size_of piece ≡ ahead_of self.old) }
        ensures more { IfOk result (λ piece. ends_line piece ≡ false → 0 < ahead_of self.new) }
        ensures too_long { (why : Mistake) → result ≡ Err (Stop.BadLine why) → (why ≡ TooLong)
            × IfSome (left_of self.old (R.remaining reader.old))
            (λ bytes. longest_line < length (before_first is_line_end bytes)) }
        ensures failed { IfErr result (λ stop. EndsReading stop → LosesPiece
            (left_of self.old (R.remaining reader.old)) (R.remaining reader.new)) }
        ensures past_limit { result ≡ Err Stop.ScriptTooLong →
            IfSome (left_of self.old (R.remaining reader.old)) (λ bytes. ahead_of self.old ≤ length bytes) }
        ensures told { result ≢ Err Stop.Untold }
        ensures quiet { Keeps (W.contents writer.old) (W.contents writer.new) }
    {
        let mut line = Vec::new(self.alloc);
        for _turn in 0..MAX_READ {
            if !self.look_ahead(reader, writer)? {
                return Ok(Piece::Last(line));
            }
            if self.move_line(&mut line)? {
                return Ok(Piece::Line(line));
            }
        }
        Err(Stop::ScriptTooLong)
    }

    fn is_used_up(&self) -> bool
        ensures { IsTrue result ↔ (unread_of self.now ≡ []) }
    {
        self.used == self.chunk.len()
    }

    /// Reads on where all is used up, and says whether there are unread bytes.
    fn look_ahead<R: Read, W: Write>(
        &mut self,
        reader: &mut R,
        writer: &mut W,
    ) -> Result<bool, Stop>
        ensures kept { OnOk result (Keeps
            (left_of self.old (R.remaining reader.old)) (left_of self.new (R.remaining reader.new))) }
        ensures end { result ≡ Ok false → IsAtEnd (left_of self.new (R.remaining reader.new)) }
        ensures ahead { OnOk result (ahead_of self.new ≡ ahead_of self.old) }
        ensures more { result ≡ Ok false → 0 < ahead_of self.new }
        ensures some { result ≡ Ok true → 0 < length (unread_of self.new) }
        ensures failed { IfErr result (λ stop. EndsReading stop →
            Keeps (left_of self.old (R.remaining reader.old)) (R.remaining reader.new)) }
        ensures past_limit { result ≡ Err Stop.ScriptTooLong → ahead_of self.old ≡ 0 }
        ensures never_bad { (why : Mistake) → result ≡ Err (Stop.BadLine why) → ⊥ }
        ensures told { result ≢ Err Stop.Untold }
        ensures quiet { Keeps (W.contents writer.old) (W.contents writer.new) }
    {
        if self.is_used_up() {
            flush(writer)?;
            self.fill(reader)
        } else {
            Ok(true)
        }
    }

    /// Moves the unread bytes of a line over, and says whether its end was met.
    fn move_line(&mut self, line: &mut Vec<u8>) -> Result<bool, Stop>
        ensures met { IfOk result (λ met. IsTrue met ↔ HasLineEnd (unread_of self.old)) }
        ensures moved { OnOk result
            (line.new.items ≡ line.old.items ++ before_first is_line_end (unread_of self.old)) }
        ensures rest { OnOk result (unread_of self.new ≡ after_first is_line_end (unread_of self.old)) }
        ensures short { OnOk result (vec_len line.new ≤ longest_line) }
        ensures too_long { result ≡ Err (Stop.BadLine TooLong)
            → longest_line < vec_len line.old + length (before_first is_line_end (unread_of self.old)) }
        ensures same { OnOk result (self.new.bytes_left ≡ self.old.bytes_left) }
        ensures reason { IfErr result (λ stop. (stop ≡ Stop.BadLine TooLong) ⊎ (stop ≡ Stop.NoMemory)) }
    {
        let unread = &self.chunk.as_slice()[self.used..];
        let length = line_length(unread);
        gather(line, &unread[..length])?;
        if length == unread.len() {
            self.used = self.chunk.len();
            return Ok(false);
        }
        self.used += length + 1;
        Ok(true)
    }

    /// Reads on, where all that was read is used up, and says whether more came.
    fn fill<R: Read>(&mut self, reader: &mut R) -> Result<bool, Stop>
        requires { unread_of self.old ≡ [] }
        ensures kept { OnOk result (Keeps
            (left_of self.old (R.remaining reader.old)) (left_of self.new (R.remaining reader.new))) }
        ensures end { result ≡ Ok false → IsAtEnd (left_of self.new (R.remaining reader.new)) }
        ensures ahead { OnOk result (ahead_of self.new ≡ ahead_of self.old) }
        ensures more { result ≡ Ok false → 0 < ahead_of self.new }
        ensures some { result ≡ Ok true → 0 < length (unread_of self.new) }
        ensures failed { IfErr result (λ stop. EndsReading stop →
            Keeps (R.remaining reader.old) (R.remaining reader.new)) }
        ensures past_limit { result ≡ Err Stop.ScriptTooLong → ahead_of self.old ≡ 0 }
        ensures never_bad { (why : Mistake) → result ≡ Err (Stop.BadLine why) → ⊥ }
        ensures told { result ≢ Err Stop.Untold }
    {
        let mut chunk = [0; CHUNK];
        for _ in 0..MAX_READ {
            if self.bytes_left == 0 {
                return Err(Stop::ScriptTooLong);
            }
            let room = self.bytes_left.min(CHUNK);
            match reader.read(&mut chunk[..room]) {
                Ok(count) => {
                    self.keep(&chunk[..count])?;
                    return Ok(count > 0);
                }
                Err(error) => {
                    if error.kind() != ErrorKind::Interrupted {
                        return Err(Stop::ReadFailed);
                    }
                }
            }
        }
        Err(Stop::ReadFailed)
    }

    /// Keeps what a read gave, in the place of what the last one gave.
    fn keep(&mut self, chunk: &[u8]) -> Result<(), AllocError>
        ensures unread { OnOk result (unread_of self.new ≡ chunk.now) }
        ensures left { OnOk result (self.new.bytes_left ≡ self.old.bytes_left - length chunk.now) }
    {
        self.used = 0;
        self.chunk.clear();
        self.chunk.extend_from_slice(chunk)?;
        self.bytes_left = self.bytes_left.saturating_sub(chunk.len());
        Ok(())
    }
}

/// How many bytes stand before the first line end, or all where there is none.
fn line_length(bytes: &[u8]) -> usize
    ensures place { result ≡ position_or_len is_line_end bytes.now }
    ensures within { result ≤ length bytes.now }
{
    match line_end(bytes) {
        Some(place) => place,
        None => bytes.len(),
    }
}

fn line_end(bytes: &[u8]) -> Option<usize>
    ensures { result ≡ position is_line_end bytes.now }
{
    bytes.iter().position(|byte| *byte == LINE_END)
}

/// Appends the piece, where the line has room for it.
fn gather(line: &mut Vec<u8>, piece: &[u8]) -> Result<(), Stop>
    ensures ok { OnOk result (line.new.items ≡ line.old.items ++ piece.now) }
    ensures short { OnOk result (vec_len line.new ≤ longest_line) }
    ensures too_long { (result ≡ Err (Stop.BadLine TooLong)) ↔ (longest_line < vec_len line.old + length piece.now) }
    ensures reason { IfErr result (λ stop. (stop ≡ Stop.BadLine TooLong) ⊎ (stop ≡ Stop.NoMemory)) }
{
    if line.len() > MAX_LINE || piece.len() > MAX_LINE - line.len() {
        return Err(Stop::BadLine(Mistake::TooLong));
    }
    line.extend_from_slice(piece)?;
    Ok(())
}
