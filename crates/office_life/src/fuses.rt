//! A disk that stops again and again: it passes so many calls on and fails each one after, until the
//! machine crashes; then it passes on the next number of calls.
ghost use Rattle.std.specs.Prelude.{◌≡◌, ◌⊎◌, ◌+◌, ◌-◌, ◌==◌, ◌↔◌, ◌&&◌, ◌++◌, ◌∷◌, [], not, false, vec_len, IsErr};
ghost use Rattle.sqlite_disk.specs.Disk.{CountsFault};
ghost use Rattle.sqlite_disk.specs.Refusal.{finds_no_room};
ghost use Rattle.office_life.specs.Standing.{NeverLies};

use sqlite_disk::{Crash, Disk, Memory, Tally};
use std::io;

/// A disk with a fuse for each stint.
#[derive(Drop)]
pub struct Fuses<D: Disk> {
    inner: D,
    calls_left: u64,
    refused: u64,
    is_sync_refused: bool,
    /// How many calls each later fuse passes on, the next last.
    later: Vec<u64>,
}

impl<D: Disk> Fuses<D> {
    ghost use Rattle.office_life.specs.Fuses.{calls_left, inner_of};

    /// A disk that passes on so many calls, and after each crash the number that is last in the
    /// list; once the list is empty, it fails no more.
    pub fn new(inner: D, calls: u64, later: Vec<u64>) -> Fuses<D>
        ensures inner { inner_of result ≡ inner }
        ensures calls { calls_left result ≡ calls }
    {
        Fuses {
            inner,
            calls_left: calls,
            refused: 0,
            is_sync_refused: false,
            later,
        }
    }

    /// The disk that it passes calls on to.
    pub fn inner(&self) -> &D
        ensures { result.now ≡ inner_of self.now }
    {
        &self.inner
    }
}

/// One call is passed on, or the fuse is blown.
fn spend(calls_left: &mut u64, refused: &mut u64) -> io::Result<()>
    ensures faults { CountsFault result refused.old refused.new }
    ensures kind { finds_no_room result ≡ false }
    ensures blown { IsErr result ↔ (calls_left.old ≡ 0) }
    ensures spent { calls_left.new ≡ calls_left.old - 1 }
{
    if *calls_left == 0 {
        *refused = refused.saturating_add(1);
        return Err(io::Error::other("the fuse is blown"));
    }
    *calls_left -= 1;
    Ok(())
}

/// How many calls the next fuse passes on; behind the last one no call fails.
fn next_fuse(later: &mut Vec<u64>) -> u64
    ensures { (later.old.items ≡ later.new.items ++ result ∷ []) ⊎ (vec_len later.old ≡ 0) }
{
    match later.pop() {
        Some(calls) => calls,
        None => u64::MAX,
    }
}

impl<D: Disk> Disk for Fuses<D> {
    ghost seen = { λ f. D.Disk.seen f.inner };

    ghost may_leave = { λ f. D.Disk.may_leave f.inner };

    ghost is_usable = { λ f. D.Disk.is_usable f.inner && not f.is_sync_refused };

    ghost faults = { λ f. D.Disk.faults f.inner + f.refused };

    ghost tally_of = { λ f. D.Disk.tally_of f.inner };

    ghost is_rotten = { λ f. D.Disk.is_rotten f.inner };

    ghost key_of = { λ f. D.Disk.key_of f.inner };

    ghost is_frozen = { λ f. f.calls_left == 0 };

    ghost is_clean = { λ f. D.Disk.is_clean f.inner };

    ghost is_fair = { λ f. D.Disk.is_fair f.inner };

    ghost fair_if_clean = { λ f. D.Disk.fair_if_clean f.inner };

    ghost seen_may_stay = { λ f. D.Disk.seen_may_stay f.inner };

    ghost is_mixing = { λ f. D.Disk.is_mixing f.inner };

    fn mixes(&self) -> bool {
        self.inner.mixes()
    }

    fn key(&self) -> u64 {
        self.inner.key()
    }

    fn tally(&self) -> Tally {
        self.inner.tally()
    }

    fn may_be_used(&self) -> bool {
        self.inner.may_be_used() && !self.is_sync_refused
    }

    fn len(&mut self) -> io::Result<usize> {
        spend(&mut self.calls_left, &mut self.refused)?;
        self.inner.len()
    }

    fn read_at(&mut self, at: usize, buf: &mut [u8]) -> io::Result<()> {
        spend(&mut self.calls_left, &mut self.refused)?;
        self.inner.read_at(at, buf)
    }

    fn read_checked(&mut self, key: u64, want: u64, at: usize, buf: &mut [u8]) -> io::Result<()> {
        spend(&mut self.calls_left, &mut self.refused)?;
        self.inner.read_checked(key, want, at, buf)
    }

    fn write_at(&mut self, at: usize, bytes: &[u8]) -> io::Result<()> {
        spend(&mut self.calls_left, &mut self.refused)?;
        self.inner.write_at(at, bytes)
    }

    fn set_len(&mut self, len: usize) -> io::Result<()> {
        spend(&mut self.calls_left, &mut self.refused)?;
        self.inner.set_len(len)
    }

    fn sync(&mut self) -> io::Result<()> {
        if let Err(error) = spend(&mut self.calls_left, &mut self.refused) {
            self.is_sync_refused = true;
            return Err(error);
        }
        self.inner.sync()
    }
}

/// The machine comes back with the next fuse.
impl<D: Crash> Crash for Fuses<D> {
    fn crash(&mut self) {
        self.inner.crash();
        self.calls_left = next_fuse(&mut self.later);
        self.is_sync_refused = false;
    }
}

/// A file in memory takes no wrong answer as true, and neither does one with fuses.
pub fn law_of_honest_disks()
    ensures memory { NeverLies ⟦<Memory as Disk>⟧ }
    ensures fuses { NeverLies ⟦<Fuses<Memory> as Disk>⟧ }
{}
