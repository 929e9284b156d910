//! Where the bytes of a trace come from.

ghost use Rattle.std.specs.Prelude.{◌≡◌, ◌∷◌, ◌++◌, ◌<◌, ◌≤◌, [], Some, length, take, map, bytes_eq, IfOk, IfSome};
ghost use Rattle.std.specs.Prelude.{OnOk};
ghost use Rattle.njh_bisync.specs.Reading.{Nothing};
ghost use Rattle.njh_bisync.specs.ByteSteps.{frames_after, rest_after};
ghost use Rattle.njh_trace.specs.Trace.{frames_told, line_as_it_is, line_told, sources_behind};
ghost use Rattle.njh_trace.specs.Pieces.{signalled};
ghost use Rattle.njh_trace.specs.Sources.{dropped_at};
ghost use Rattle.njh_trace.specs.Sources.{max_sources, place_of, rest_of, sources_with, sources_without};

use crate::frames::put_frames;
use crate::parts::has_parts;
use crate::pieces::{Piece, piece_in};
use crate::signals::signalled;
use njh_bisync::Deframer;
use std::alloc::{AllocError, Global};
use std::marker::Model;

/// How many sources are kept.
const MAX_SOURCES: usize = 512;

/// A source: a line of the hub in one direction, or hex digits that are alone.
#[derive(Drop)]
struct Source {
    mark: Vec<u8>,
    deframer: Deframer,
}

impl Model for Source {
    ghost use Rattle.njh_trace.specs.Sources.{SourceView};

    ghost Value = { SourceView };

    ghost view = { λ source. record { mark = source.mark.items; rest = source.deframer } };
}

impl Source {
    /// A source of which nothing came yet.
    fn new(alloc: Global, mark: &[u8]) -> Result<Source, AllocError>
        ensures { IfOk result (λ source. source ≡ record { mark = mark.now; rest = Nothing }) }
    {
        Ok(Source {
            mark: Vec::from_slice(alloc, mark)?,
            deframer: Deframer::new(alloc)?,
        })
    }

    /// Whether it has this mark.
    fn is_marked(&self, mark: &[u8]) -> bool
        ensures { result ≡ bytes_eq self.now.mark mark.now }
    {
        self.mark.as_slice() == mark
    }

    /// Takes bytes, and appends what each frame says that ends in them.
    fn take(&mut self, bytes: &[u8], hex: bool, lines: &mut Vec<u8>) -> Result<(), AllocError>
        ensures lines { OnOk result (lines.new.items
            ≡ lines.old.items ++ frames_told hex self.old.mark (frames_after self.old.rest bytes.now)) }
        ensures after { OnOk result (self.new ≡ record self.old { rest = rest_after self.old.rest bytes.now }) }
    {
        put_frames(lines, &mut self.deframer, bytes, &self.mark, hex)
    }

    /// Drops what isn't whole, if its mark has these two parts.
    fn drop_at(&mut self, name: &[u8], direction: &[u8])
        ensures { self.new ≡ dropped_at (name.now ++ direction.now) self.old }
    {
        if has_parts(&self.mark, name, direction) {
            self.deframer.reset();
        }
    }
}

/// The sources of a trace so far, each with what has come of a frame that isn't whole. They are
/// those that came first, 512 at most: of more, as no hub has, each line is told by itself.
///
/// A clause sees the list of them.
#[derive(Drop)]
pub struct Sources {
    alloc: Global,
    sources: Vec<Source>,
}

impl Model for Sources {
    ghost use Rattle.std.specs.Prelude.{List, length, ◌≤◌};
    ghost use Rattle.njh_trace.specs.Sources.{SourceView};

    ghost Value = { List SourceView };

    ghost view = { λ s. s.sources.items };

    ghost invariant = { λ s. length s.sources.items ≤ 512 };
}

impl Sources {
    /// Nothing came yet.
    pub fn new(alloc: Global) -> Sources
        ensures { result ≡ [] }
    {
        Sources {
            alloc,
            sources: Vec::new(alloc),
        }
    }

    /// Appends what a line of a trace says, each line of words ended by 0A. Of a line that gives
    /// bytes these are the words of each frame that ends in them, after the mark of its source, as
    /// `a1 in: `, and before them the line itself if `hex` is wanted; any other line stays as
    /// it is.
    ///
    /// Want of memory is the only refusal; then a part may have been appended, and the bytes may
    /// have been taken.
    #[tactic(auto, unfolding(crate::specs::Trace::line_told, crate::specs::Trace::sources_behind))]
    pub fn take_line(
        &mut self,
        line: &[u8],
        hex: bool,
        lines: &mut Vec<u8>,
    ) -> Result<(), AllocError>
        ensures told { OnOk result (lines.new.items ≡ lines.old.items ++ line_told hex self.old line.now) }
        ensures sources { OnOk result (self.new ≡ sources_behind self.old line.now) }
    {
        match piece_in(self.alloc, line)? {
            Some(piece) => {
                if hex {
                    put_line(lines, line)?;
                }
                self.take(&piece, hex, lines)
            }
            None => {
                self.drop_signalled(line);
                put_line(lines, line)
            }
        }
    }

    /// Takes bytes, and appends what each frame says that ends in them.
    #[tactic(auto, unfolding(crate::specs::Sources::sources_with))]
    fn take(&mut self, piece: &Piece, hex: bool, lines: &mut Vec<u8>) -> Result<(), AllocError>
        ensures told { OnOk result (lines.new.items ≡ lines.old.items
            ++ frames_told hex piece.now.mark (frames_after (rest_of piece.now.mark self.old) piece.now.bytes)) }
        ensures sources { OnOk result (self.new ≡ sources_with piece.now self.old) }
    {
        match place_of(&self.sources, piece.mark()) {
            Some(place) => take_at(&mut self.sources, place, piece, hex, lines),
            None => self.take_first(piece, hex, lines),
        }
    }

    /// The same of a source that is new.
    fn take_first(
        &mut self,
        piece: &Piece,
        hex: bool,
        lines: &mut Vec<u8>,
    ) -> Result<(), AllocError>
        ensures told { OnOk result (lines.new.items ≡ lines.old.items
            ++ frames_told hex piece.now.mark (frames_after Nothing piece.now.bytes)) }
        ensures sources { OnOk result (self.new ≡ take max_sources (self.old
            ++ record { mark = piece.now.mark; rest = rest_after Nothing piece.now.bytes } ∷ [])) }
    {
        let mut source = Source::new(self.alloc, piece.mark())?;
        source.take(piece.bytes(), hex, lines)?;
        push_within(&mut self.sources, source)
    }

    /// Drops what isn't whole on the line of the hub of which a line tells a tick, a garbled block
    /// or a loss.
    #[tactic(auto, unfolding(crate::specs::Sources::sources_without))]
    fn drop_signalled(&mut self, line: &[u8])
        ensures { self.new ≡ sources_without (signalled line.now) self.old }
    {
        if let Some(name) = signalled(line) {
            drop_marked(&mut self.sources, name, b" in: ");
            drop_marked(&mut self.sources, name, b" out: ");
        }
    }
}

/// The place of the source of a mark.
fn place_of(sources: &[Source], mark: &[u8]) -> Option<usize>
    ensures place { result ≡ place_of mark.now sources.now }
    ensures within { IfSome result (λ place. place < length sources.now) }
{
    sources.iter().position(|source| source.is_marked(mark))
}

/// The source at the place of its mark takes bytes, and appends what each frame says that ends in
/// them.
fn take_at(
    sources: &mut [Source],
    place: usize,
    piece: &Piece,
    hex: bool,
    lines: &mut Vec<u8>,
) -> Result<(), AllocError>
    requires place { place_of piece.now.mark sources.old ≡ Some place }
    requires within { place < length sources.old }
    ensures told { OnOk result (lines.new.items ≡ lines.old.items
        ++ frames_told hex piece.now.mark (frames_after (rest_of piece.now.mark sources.old) piece.now.bytes)) }
    ensures sources { OnOk result (sources.new ≡ sources_with piece.now sources.old) }
{
    sources[place].take(piece.bytes(), hex, lines)
}

/// Adds a source after the others, if there is room.
fn push_within(sources: &mut Vec<Source>, source: Source) -> Result<(), AllocError>
    requires { length sources.old.items ≤ 512 }
    ensures sources { OnOk result (sources.new.items ≡ take max_sources (sources.old.items ++ source ∷ [])) }
    ensures within { length sources.new.items ≤ 512 }
{
    if sources.len() < MAX_SOURCES {
        sources.push(source)?;
    }
    Ok(())
}

/// Drops what isn't whole of each source whose mark has these two parts.
fn drop_marked(sources: &mut [Source], name: &[u8], direction: &[u8])
    ensures { sources.new ≡ map (dropped_at (name.now ++ direction.now)) sources.old }
{
    for source in sources.iter_mut() {
        source.drop_at(name, direction);
    }
}

/// Appends a line as it is.
fn put_line(lines: &mut Vec<u8>, line: &[u8]) -> Result<(), AllocError>
    ensures { OnOk result (lines.new.items ≡ lines.old.items ++ line_as_it_is line.now) }
{
    lines.extend_from_slice(line)?;
    lines.extend_from_slice(b"\n")
}
