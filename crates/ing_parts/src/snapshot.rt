//! What is read off a shard at one moment: parts of streams.
ghost use Rattle.std.specs.Prelude.{◌≡◌, ℕ, [], List, OnOk, map, true};
ghost use Rattle.ing_chunk.specs.Chunks.{IsSpanOf, entries_growing, entries_in_memory, entries_of, entries_of_all, in_blocks};
ghost use Rattle.ing_parts.specs.Parts.{Adds, HasRangeOf, entries_in, found_of};
ghost use Rattle.ing_parts.specs.Questions.{question_view};

use crate::best::Best;
use crate::found::{Question, StreamName};
use crate::laws::additions_join;
use crate::listing::Listing;
use crate::offers::{is_passed_over, offer_entries, offer_head};
use ing_chunk::{Block, Chunk, Chunks, Head, Numbered};
use ing_rows::Order;
use ing_store::Receipt;
use std::alloc::{AllocError, Global};

/// What a shard has of the streams of a tenant that a selector picks, at one moment (Loki documentation: architecture,
/// ingester; own).
#[derive(Drop)]
pub struct Snapshot<'a, R: Receipt> {
    /// How many entries the shard had accepted.
    pub front: u64,
    /// What is asked, with no more stamps than a cursor leaves.
    pub question: Question<'a>,
    /// Of the wanted entries that cannot be shared the best, as far as they may be in an answer.
    pub best: Best,
    /// Where the other entries stand that are wanted; more may stand there.
    pub parts: Vec<Part<R>>,
}

impl<'a, R: Receipt> Snapshot<'a, R> {
    /// Of a shard that had accepted so many entries, for an answer to this question; without parts yet. Takes no memory.
    pub fn new(alloc: Global, front: u64, question: Question<'a>) -> Snapshot<'a, R>
        ensures front { result.front ≡ front }
        ensures range { HasRangeOf (question_view question.entry) result }
        ensures best { result.best
            ≡ record { order = question.entry.order; limit = question.entry.limit; held = [] } }
        ensures parts { result.parts.items ≡ [] }
    {
        Snapshot {
            front,
            question: question.narrowed(),
            best: Best::new(alloc, question.order, question.limit),
            parts: Vec::new(alloc),
        }
    }

    /// Adds what is wanted of a stream's chunks in memory. They begin where an answer begins.
    pub fn add_chunks(
        &mut self,
        alloc: Global,
        name: &StreamName,
        chunks: &Chunks,
    ) -> Result<(), AllocError>
        ensures { OnOk result
            (Adds (map (found_of name.now) (entries_in_memory chunks.now)) self.old self.new) }
    {
        match self.best.order() {
            Order::Forward => {
                self.add_from_first(alloc, name, chunks.waiting_chunks())?;
                self.add_growing(alloc, name, chunks)?;
            }
            Order::Backward => {
                self.add_growing(alloc, name, chunks)?;
                self.add_from_last(alloc, name, chunks.waiting_chunks())?;
            }
        }
        Ok(())
    }

    /// Adds what is wanted of chunks in memory, the first chunk first.
    fn add_from_first(
        &mut self,
        alloc: Global,
        name: &StreamName,
        chunks: &[Chunk],
    ) -> Result<(), AllocError>
        ensures { OnOk result
            (Adds (map (found_of name.now) (entries_of_all chunks.now)) self.old self.new) }
    {
        additions_join::<R>();
        for chunk in chunks {
            self.add_chunk(alloc, name, chunk)?;
        }
        Ok(())
    }

    /// Adds what is wanted of chunks in memory, the last chunk first.
    fn add_from_last(
        &mut self,
        alloc: Global,
        name: &StreamName,
        chunks: &[Chunk],
    ) -> Result<(), AllocError>
        ensures { OnOk result
            (Adds (map (found_of name.now) (entries_of_all chunks.now)) self.old self.new) }
    {
        additions_join::<R>();
        for index in (0..chunks.len()).rev() {
            self.add_chunk(alloc, name, &chunks[index])?;
        }
        Ok(())
    }

    /// Adds what is wanted of a growing chunk, where there is one.
    fn add_growing(
        &mut self,
        alloc: Global,
        name: &StreamName,
        chunks: &Chunks,
    ) -> Result<(), AllocError>
        ensures { OnOk result
            (Adds (map (found_of name.now) (entries_growing chunks.now.growing)) self.old self.new) }
    {
        additions_join::<R>();
        if let Some(chunk) = chunks.growing() {
            self.add_chunk(alloc, name, chunk)?;
        }
        Ok(())
    }

    /// Whether their span shows that nothing is wanted of entries. Constant.
    fn passes_over(&self, span: Option<(u64, u64)>) -> bool
        ensures { result ≡ true → (name : List ℕ) (es : List Numbered) → IsSpanOf span es →
            Adds (map (found_of name) es) self.now self.now }
    {
        is_passed_over(&self.best, span, &self.question)
    }

    /// Adds what is wanted of a chunk in memory, of which its span may show that it is nothing: its closed blocks as they are,
    /// and copies of the best of the entries of its head. They begin where an answer begins: a head is newer than the blocks,
    /// most often.
    pub fn add_chunk(
        &mut self,
        alloc: Global,
        name: &StreamName,
        chunk: &Chunk,
    ) -> Result<(), AllocError>
        ensures { OnOk result
            (Adds (map (found_of name.now) (entries_of chunk.now)) self.old self.new) }
    {
        if self.passes_over(chunk.span()) {
            return Ok(());
        }
        match self.best.order() {
            Order::Forward => {
                self.add_blocks_from_first(alloc, name, chunk.blocks())?;
                self.add_head(alloc, name, chunk.head())?;
            }
            Order::Backward => {
                self.add_head(alloc, name, chunk.head())?;
                self.add_blocks_from_last(alloc, name, chunk.blocks())?;
            }
        }
        Ok(())
    }

    /// Keeps copies of the best of the entries of a head that are wanted.
    fn add_head(&mut self, alloc: Global, name: &StreamName, head: &Head) -> Result<(), AllocError>
        ensures { OnOk result (Adds (map (found_of name.now) head.now) self.old self.new) }
    {
        let question = self.question;
        offer_head(&mut self.best, alloc, name, head, &question)?;
        Ok(())
    }

    /// Adds closed blocks, the first one first.
    fn add_blocks_from_first(
        &mut self,
        alloc: Global,
        name: &StreamName,
        blocks: &[Block],
    ) -> Result<(), AllocError>
        ensures { OnOk result
            (Adds (map (found_of name.now) (in_blocks blocks.now)) self.old self.new) }
    {
        additions_join::<R>();
        for block in blocks {
            self.add_block(alloc, name, block)?;
        }
        Ok(())
    }

    /// Adds closed blocks, the last one first.
    fn add_blocks_from_last(
        &mut self,
        alloc: Global,
        name: &StreamName,
        blocks: &[Block],
    ) -> Result<(), AllocError>
        ensures { OnOk result
            (Adds (map (found_of name.now) (in_blocks blocks.now)) self.old self.new) }
    {
        additions_join::<R>();
        for index in (0..blocks.len()).rev() {
            self.add_block(alloc, name, &blocks[index])?;
        }
        Ok(())
    }

    /// Adds a closed block as it is, and copies of the best of its entries where it cannot be shared; nothing where its span
    /// shows that nothing of it is wanted.
    fn add_block(
        &mut self,
        alloc: Global,
        name: &StreamName,
        block: &Block,
    ) -> Result<(), AllocError>
        ensures { OnOk result (Adds (map (found_of name.now) block.now) self.old self.new) }
    {
        if self.passes_over(block.span()) {
            return Ok(());
        }
        match block.share()? {
            Some(same) => self.add(name, Source::Block(same)),
            None => self.add_entries(alloc, name, block.entries()),
        }
    }

    /// Keeps copies of the best of these entries that are wanted.
    fn add_entries(
        &mut self,
        alloc: Global,
        name: &StreamName,
        entries: &[Numbered],
    ) -> Result<(), AllocError>
        ensures { OnOk result (Adds (map (found_of name.now) entries.now) self.old self.new) }
    {
        let question = self.question;
        offer_entries(&mut self.best, alloc, name, entries, &question)?;
        Ok(())
    }

    /// Adds a stored chunk, where its span meets the range. Reads no store.
    pub fn add_stored(&mut self, name: &StreamName, listing: &Listing<R>) -> Result<(), AllocError>
        ensures { OnOk result
            (Adds (map (found_of name.now) (in_blocks listing.now.blocks)) self.old self.new) }
    {
        if listing.misses(self.question.start, self.question.end) {
            return Ok(());
        }
        let listing = listing.share()?;
        self.add(name, Source::Stored(listing))
    }

    /// Adds a part.
    fn add(&mut self, name: &StreamName, source: Source<R>) -> Result<(), AllocError>
        ensures { OnOk result
            (Adds (map (found_of name.now) (entries_in source)) self.old self.new) }
    {
        let name = name.share()?;
        self.parts.push(Part { name, source })?;
        Ok(())
    }
}

/// Where entries stand that a query may want, and that its snapshot shares.
#[derive(Drop)]
pub enum Source<R: Receipt> {
    /// A closed block in memory, which its shard holds too.
    Block(Block),
    /// A chunk in a store.
    Stored(Listing<R>),
}

/// Entries of one stream, where they stand.
#[derive(Drop)]
pub struct Part<R: Receipt> {
    /// The canonical name of the stream.
    pub name: StreamName,
    /// Where they stand.
    pub source: Source<R>,
}
