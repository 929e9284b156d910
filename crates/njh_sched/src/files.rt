//! What is looked at of a customer's files.

ghost use Rattle.std.specs.Prelude.{◌≡◌, ◌<◌, ◌-◌, ◌^◌, ◌==◌, ◌&&◌, ℕ, Bool, false, List, length, slice_get, IsSomeAnd};
ghost use Rattle.std.specs.Prelude.{IsTrue};
ghost use Rattle.std.specs.List.{list_any};
ghost use Rattle.njh_spool.specs.CustomerSpool.{whole_numbered};
ghost use Rattle.njh_spool.specs.Spools.{spool_at};
ghost use Rattle.njh_stream.specs.Sending.{node_goes_by};
ghost use Rattle.njh_table.specs.TableFile.{entry_of};
ghost use Rattle.njh_sched.specs.NextBlock.{is_ready, same_kind};
ghost use Rattle.njh_sched.specs.code.FileCursor.{other, passed_where};

use arrayvec::ArrayVec;
use njh_record::Kind;
use njh_spool::{FileId, FileSummary, Spool, State};
use njh_stream::node_goes_by;
use njh_table::NamedCustomer;

/// A customer's whole file by its index in order of arrival.
pub fn file_at(customer: u16, index: u32, spool: &Spool) -> FileId
    requires range { customer < length spool.now }
    requires index_range { index < length (spool_at customer spool.now).whole }
    ensures file { whole_numbered result (spool_at customer spool.now)
        ≡ slice_get (spool_at customer spool.now).whole index }
    ensures number { IsSomeAnd (slice_get (spool_at customer spool.now).whole index) (λ f. result ≡ f.number) }
{
    spool.file_at(customer, index)
}

/// Whether two kinds are the same.
pub fn same_kind(a: Kind, b: Kind) -> bool
    ensures { result ≡ same_kind a b }
{
    match a {
        Kind::In => matches!(b, Kind::In),
        Kind::Out => matches!(b, Kind::Out),
    }
}

/// The other kind.
pub fn other(kind: Kind) -> Kind
    ensures { result ≡ other kind }
{
    match kind {
        Kind::In => Kind::Out,
        Kind::Out => Kind::In,
    }
}

/// How many nodes are kept that were found not to go by a line.
const MAX_ELSEWHERE: usize = 8;

/// Nodes that don't go by a line.
pub type Elsewhere = ArrayVec<[u8; 8], MAX_ELSEWHERE>;

/// Whether a node was found among some: where it says so, the node is one of them.
pub fn is_among(nodes: &[[u8; 8]], node: &[u8; 8]) -> bool
    ensures { IsTrue result → (test : List ℕ → Bool) → list_any test nodes.now ≡ false → test node.now ≡ false }
{
    for other in nodes {
        if other == node {
            return true;
        }
    }
    false
}

/// Whether a node goes by a line. Where it doesn't it is kept among those that don't, while there
/// is room.
pub fn goes_there(
    entry: &NamedCustomer,
    line: u16,
    node: &[u8; 8],
    elsewhere: &mut Elsewhere,
) -> bool
    requires { list_any (node_goes_by (entry_of entry.now) line) elsewhere.old.items ≡ false }
    ensures goes { result ≡ node_goes_by (entry_of entry.now) line node.now }
    ensures elsewhere { list_any (node_goes_by (entry_of entry.now) line) elsewhere.new.items ≡ false }
{
    let goes = node_goes_by(entry, line, node);
    if !goes && !elsewhere.is_full() {
        elsewhere.push(*node);
    }
    goes
}

/// Whether a whole file is Ready.
pub fn is_ready(state: State) -> bool
    ensures { result ≡ is_ready state }
{
    match state {
        State::Ready => true,
        State::Held | State::Refused | State::Sending => false,
    }
}

/// Moves the index for the other kind on, where the file that stands there is of this kind.
pub fn pass_where(index: u32, kind: Kind, file: &FileSummary, others: &mut u32)
    requires { index < 2 ^ 32 - 1 }
    ensures { others.new ≡ passed_where (same_kind file.now.kind kind && (others.old == index)) index others.old }
{
    if same_kind(file.kind, kind) && *others == index {
        *others = index + 1;
    }
}
