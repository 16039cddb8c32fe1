// A peer's name: 1 to MAXIMUM_PEER bytes, zero padded when the relay stores it.
ghost use Rattle.std.specs.Prelude.{◌≡◌, ◌≢◌, ◌≤◌, true, length};
ghost use Rattle.hns_encoding.specs.Cursor.{written_at};
ghost use Rattle.hnsr_circuit.specs.Peer.{peer_length, peer_bytes, peer_of, same_bytes, same_peer};
ghost use Rattle.hnsr_circuit.specs.Laws.Peer.{same_equivalence, same_partial};

// The one limit: the words of a peer, of a route and the outputs that the calls need follow from it.
pub const MAXIMUM_PEER: usize = 128;

// An array and a length: it lies as in C, and there is no heap.
#[repr(C)]
#[derive(Clone, Copy)]
pub struct HnsrPeerId {
    pub len: usize,
    pub bytes: [u8; MAXIMUM_PEER],
}

// What stands behind a name is never read: two are equal where their names are.
impl PartialEq for HnsrPeerId {
    ghost eq = { same_peer };

    ghost laws = { same_partial };

    #[tactic(auto, unfolding(crate::specs::Peer::same_peer))]
    fn eq(&self, other: &Self) -> bool {
        same_names(self.name(), other.name())
    }
}

impl Eq for HnsrPeerId {
    ghost laws = { same_equivalence };
}

impl HnsrPeerId {
    pub(crate) const NOBODY: Self = Self {
        len: 0,
        bytes: [0; MAXIMUM_PEER],
    };

    // The stored form of a name that the host gives.
    #[tactic(auto, unfolding(crate::specs::Peer::peer_of), using(crate::specs::Laws::Peer::stored_name))]
    pub(crate) fn new(name: &[u8]) -> Self
        ensures { result ≡ peer_of name.now }
    {
        let mut bytes = [0; MAXIMUM_PEER];
        let most = name.len().min(MAXIMUM_PEER);
        put_front(&mut bytes, &name[..most]);
        Self {
            len: name.len(),
            bytes,
        }
    }

    // A length over the most reads as the most.
    pub(crate) fn length(&self) -> usize
        ensures { result ≡ peer_length self.now }
    {
        self.len.min(MAXIMUM_PEER)
    }

    #[tactic(auto, unfolding(crate::specs::Peer::peer_bytes))]
    pub(crate) fn name(&self) -> &[u8]
        ensures { result.now ≡ peer_bytes self.now }
    {
        &self.bytes[..self.length()]
    }
}

// A name over the front of as many bytes or more.
fn put_front(bytes: &mut [u8], name: &[u8])
    requires { length name.now ≤ length bytes.old }
    ensures { bytes.new ≡ written_at bytes.old 0 name.now }
{
    bytes[..name.len()].copy_from_slice(name);
}

// Whether a byte within two names of one length tells them apart: here and below each place of one is one of the other.
fn differ_at(a: &[u8], b: &[u8], k: usize) -> bool
    requires { length a.now ≡ length b.now }
    ensures { result ≡ true → a.now ≢ b.now }
{
    k < a.len() && a[k] != b[k]
}

// Whether one of four bytes does: names that are numbered have their number behind.
fn soon_differ(a: &[u8], b: &[u8]) -> bool
    requires { length a.now ≡ length b.now }
    ensures { result ≡ true → a.now ≢ b.now }
{
    differ_at(a, b, 15) || differ_at(a, b, 11) || differ_at(a, b, 7) || differ_at(a, b, 0)
}

// Whether all bytes of two names of one length are the same. All are read, so that many can be compared at a time.
#[tactic(auto, using(crate::specs::Laws::Peer::bytewise))]
fn all_same(a: &[u8], b: &[u8]) -> bool
    requires { length a.now ≡ length b.now }
    ensures { result ≡ same_bytes a.now b.now }
{
    let mut same = true;
    for (i, x) in a.iter().enumerate() {
        if *x != b[i] {
            same = false;
        }
    }
    same
}

// Two names where they stand. The slices' `==` is slower: it took 1.5 times as long with names of 8 bytes, 2.7 to 3.1
// with 16, 2.1 to 2.4 with 128.
#[tactic(auto, using(crate::specs::Laws::Peer::bytes_other))]
fn same_names(a: &[u8], b: &[u8]) -> bool
    ensures { result ≡ same_bytes a.now b.now }
{
    if a.len() != b.len() {
        return false;
    }
    !soon_differ(a, b) && all_same(a, b)
}
