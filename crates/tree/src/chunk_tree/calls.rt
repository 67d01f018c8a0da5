// What a chunk tree is asked and told.
ghost use Rattle.std.specs.Prelude.{All, ◌≡◌, ℕ, ◌+◌, ◌-◌, ◌*◌, ◌<◌, ◌≤◌, Bool, true, false, ◌&&◌, List, [], length, take, drop, if◌then◌else◌, None, Decides, is_ok, OnOk, OnErr};
ghost use Rattle.search.specs.Forwards.{stop};
ghost use Rattle.search.specs.Backwards.{back_stop};
ghost use Rattle.chunks.specs.Tree.{Balanced, height as height_of};
ghost use Rattle.chunks.specs.Cut.{joined, cut, replaced, Chunk};
ghost use Rattle.std.specs.List.{range_with_len, between};
ghost use Rattle.chunks.specs.Spot.{spot_in};
ghost use Rattle.slots.specs.Replace.{SameSize};
ghost use Rattle.slots.specs.Sound.{free_of};
ghost use Rattle.measure.specs.Measure.{Measure, reading as reading_of};
ghost use Rattle.tree.specs.Public.{tree_in, chunks_now, usable_of, lent_to, KeptBy, copyable, preparable, replaceable};
ghost use Rattle.tree.specs.Refused.{copying, preparing, replacing};
ghost use Rattle.slots.specs.Copy.{pasted};
ghost use Rattle.questions.specs.Under.{tree_under, chunks_under, text_under, KeptUnder};
ghost use Rattle.questions.specs.Spans.{within};

use crate::chunk_tree::ChunkTree;
use crate::lent::Lent;
use crate::refusal::{CopyRefusal, PrepareRefusal, ReplaceRefusal};
use chunks::Spot;
use exchange::prepare::prepare;
use exchange::replace::exchange;
use in_place::rewrite::overwrite;
use meter::Meter;
use questions::span::Span;
use questions::subtree::Subtree;
use search::stop::Stop;
use seek::backward::Backward;
use seek::forward::Forward;
use seek::seek_back::seek_back;
use seek::seek_tree::seek;
use slots::slot::Extent;

impl<'a, R: Copy> ChunkTree<'a, R> {
    // The tree that memory holds.
    pub(crate) fn tree(&self) -> Subtree<'_, 'a, R>
        ensures tree { tree_under result ≡ tree_in self.now }
        ensures chunks { chunks_under result ≡ chunks_now self.now }
        ensures memory { result.memory.now ≡ self.now.memory }
        ensures keeps { (μ : Measure R) → KeptBy self.now μ → KeptUnder result μ }
    {
        Subtree::new(&self.memory, self.root)
    }

    // The lowest part in which lies all of a range, and the range counted in it.
    // `from` and `to` stay parameters, here and below: a struct of places (u32) or of chunks (u16) would be made at nearly every call,
    // and clauses would say `span.from`. A `Span` is made of them here, once for three.
    fn part(&self, from: u32, to: u32) -> (Subtree<'_, 'a, R>, Span)
        ensures bytes { within result.1 (text_under result.0) ≡ between from to (joined (chunks_now self.now)) }
        ensures keeps { (μ : Measure R) → KeptBy self.now μ → KeptUnder result.0 μ }
    {
        let span = Span {
            from: from as usize,
            to: to as usize,
        };
        let whole = self.tree();
        // An empty range lies in any part: there is no way down to go.
        if from >= to {
            return (whole, span);
        }
        whole.narrowed(span)
    }

    // How large it is.
    fn extent(&self) -> Extent
        ensures height { result.height ≡ height_of (tree_in self.now) }
        ensures bytes { result.bytes ≡ length (joined (chunks_now self.now)) }
        ensures chunks { result.chunks ≡ length (chunks_now self.now) }
        ensures balanced { Balanced (tree_in self.now) }
        ensures low { height_of (tree_in self.now) ≤ 16 }
        ensures short { length (joined (chunks_now self.now)) ≤ 262144 }
        ensures few { length (chunks_now self.now) ≤ usable_of self.now }
        ensures chunked { All Chunk (chunks_now self.now) }
    {
        self.tree().extent()
    }

    // How many slots may be used: none before `prepare`.
    pub fn usable(&self) -> u16
        ensures is { result ≡ usable_of self.now }
        ensures few { result ≤ 4096 }
    {
        self.memory.usable
    }

    // How many slots, bytes of store and readings are lent.
    pub fn lent(&self) -> Lent
        ensures { result ≡ lent_to self.now }
    {
        Lent {
            slots: self.memory.slots.len(),
            store: self.memory.store.len(),
            readings: self.memory.readings.len(),
        }
    }

    // How many bytes there are: at most 262,144.
    pub fn bytes(&self) -> u32
        ensures is { result ≡ length (joined (chunks_now self.now)) }
        ensures few { result ≤ 262144 }
    {
        self.extent().bytes
    }

    // How many chunks there are: no more than slots that may be used. Each has 1 to 64 bytes.
    pub fn chunks(&self) -> u16
        ensures is { result ≡ length (chunks_now self.now) }
        ensures few { result ≤ usable_of self.now }
        ensures chunked { All Chunk (chunks_now self.now) }
    {
        self.extent().chunks
    }

    // How high the tree is: it is balanced, so at most 16.
    pub fn height(&self) -> u8
        ensures is { result ≡ height_of (tree_in self.now) }
        ensures balanced { Balanced (tree_in self.now) }
        ensures low { result ≤ 16 }
    {
        self.extent().height
    }

    // How many chunks lie before a place, and how many bytes of the next one.
    pub fn spot(&self, place: u32) -> Spot
        ensures is { result ≡ spot_in (chunks_now self.now) place }
        ensures few { result.chunk ≤ 4096 }
    {
        self.tree().spot(place)
    }

    // Copies the bytes from `from` up to `to` to the front of `out`, where that is a range of the text and fits.
    pub fn copy(&self, from: u32, to: u32, out: &mut [u8]) -> Result<(), CopyRefusal>
        ensures answer { result ≡ copying self.now from to out.old }
        ensures done { is_ok result ≡ copyable self.now from to out.old }
        ensures copied { out.new ≡ (if is_ok result then pasted out.old 0 (between from to (joined (chunks_now self.now))) else out.old) }
    {
        if from > to || to > self.bytes() {
            return Err(CopyRefusal::OutsideText);
        }
        if (to - from) as usize > out.len() {
            return Err(CopyRefusal::ShortBuffer);
        }
        let (part, span) = self.part(from, to);
        let _ = part.copy(span, out, 0);
        Ok(())
    }

    // Whether the text from `place` on begins with `given`.
    pub fn same(&self, place: u32, given: &[u8]) -> bool
        ensures { Decides result ((place ≤ length (joined (chunks_now self.now))) × (between place (place + length given.now) (joined (chunks_now self.now)) ≡ given.now)) }
    {
        let bytes = self.bytes();
        if place > bytes || given.len() > (bytes - place) as usize {
            return false;
        }
        let (part, span) = self.part(place, place + given.len() as u32);
        part.same(span, given)
    }

    // The reading of the bytes from `from` up to `to`, joined from the readings that slots keep and the cut ends' own bytes.
    pub fn reading<M: Meter<Reading = R>>(&self, meter: &M, from: u32, to: u32) -> R
        ensures { KeptBy self.now (M.scale meter.now) → result ≡ reading_of (M.scale meter.now) (between from to (joined (chunks_now self.now))) }
    {
        let (part, span) = self.part(from, to);
        part.reading(meter, span)
    }

    // Where a search comes to in the text from a place on: as defined, where the readings kept are those it looks into.
    pub fn seek<S: Forward<Reading = R>>(&self, search: &S, place: u32, at: S::At) -> Stop<S::At>
        ensures within { result.passed ≤ length (drop place (joined (chunks_now self.now))) }
        ensures finds { KeptBy self.now (S.scale search.now) → result ≡ stop (S.goes search.now) at (drop place (joined (chunks_now self.now))) }
    {
        seek(search, self.tree(), place as usize, at)
    }

    // The same from a place back; `state` is the forward state in which the text begins.
    pub fn seek_back<S: Backward<Reading = R>>(
        &self,
        search: &S,
        state: S::Fore,
        place: u32,
        at: S::At,
    ) -> Stop<S::At>
        ensures within { result.passed ≤ length (take place (joined (chunks_now self.now))) }
        ensures finds { KeptBy self.now (S.scale search.now) → result ≡ back_stop (S.fore search.now) (S.back search.now) state (take place (joined (chunks_now self.now))) at }
    {
        seek_back(search, self.tree(), state, place as usize, at)
    }

    // Makes the first `n` slots usable, all of them free, where nothing is usable yet and memory has room for them.
    pub fn prepare(&mut self, n: u16) -> Result<(), PrepareRefusal>
        ensures answer { result ≡ preparing self.old n }
        ensures done { is_ok result ≡ preparable self.old n }
        ensures usable { self.new.memory.usable ≡ (if is_ok result then n else self.old.memory.usable) }
        ensures lent { lent_to self.new ≡ lent_to self.old }
        ensures chunks { chunks_now self.new ≡ (if is_ok result then [] else chunks_now self.old) }
        ensures free { OnOk result (free_of self.new.memory ≡ range_with_len 0 n) }
        ensures keeps { OnOk result ((μ : Measure R) → KeptBy self.new μ) }
        ensures store { self.new.memory.store.now ≡ self.old.memory.store.now }
        ensures readings { self.new.memory.readings.now ≡ self.old.memory.readings.now }
        ensures same { OnErr result ((self.new.memory ≡ self.old.memory) × (self.new.root ≡ self.old.root)) }
    {
        let room = n as usize;
        if self.usable() != 0 {
            return Err(PrepareRefusal::Prepared);
        }
        if n < 1 || n > 4096 {
            return Err(PrepareRefusal::UnfitNumber);
        }
        if self.memory.slots.len() < room
            || self.memory.readings.len() < room
            || self.memory.store.len() < 64 * room
        {
            return Err(PrepareRefusal::ShortMemory);
        }
        prepare(&mut self.memory, n);
        self.root = None;
        Ok(())
    }

    // Puts the chunks that `bytes` are cut into in the place of the chunks from `from` up to `to`, where that is a run
    // of chunks and there are slots enough.
    pub fn replace<M: Meter<Reading = R>>(
        &mut self,
        meter: &M,
        from: u16,
        to: u16,
        bytes: &[u8],
    ) -> Result<(), ReplaceRefusal>
        ensures answer { result ≡ replacing self.old from to bytes.now }
        ensures done { is_ok result ≡ replaceable self.old from to bytes.now }
        ensures chunks { chunks_now self.new ≡ (if is_ok result then replaced from to (cut bytes.now) (chunks_now self.old) else chunks_now self.old) }
        ensures keeps { KeptBy self.old (M.scale meter.now) → KeptBy self.new (M.scale meter.now) }
        ensures size { SameSize self.old.memory self.new.memory }
        ensures same { OnErr result ((self.new.memory ≡ self.old.memory) × (self.new.root ≡ self.old.root)) }
    {
        let chunks = self.chunks();
        if from > to || to > chunks {
            return Err(ReplaceRefusal::NoRun);
        }
        let count = bytes.len().div_ceil(64);
        if (chunks - (to - from)) as usize + count > self.usable() as usize {
            return Err(ReplaceRefusal::NoRoom);
        }
        if count == (to - from) as usize {
            overwrite(meter, &mut self.memory, self.root, from, bytes);
        } else {
            self.root = exchange(meter, &mut self.memory, self.root, from, to, bytes);
        }
        Ok(())
    }
}
