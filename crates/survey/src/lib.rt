// The survey of a job: what its chunks come to, one after another, with a mark for each in the recipe and nothing stored. The
// layer below admission.
#![tactic(auto)]

ghost use Rattle.std.specs.Prelude.{◌≡◌, ◌+◌, ◌^◌, ◌<◌};
ghost use Rattle.marks.specs.internal.Places.{Placed};
ghost use Rattle.survey.specs.internal.Snapshot.{snapshot, begun_at, with_repeated, with_new, chunk_told, chunk_outcome, heads_after};
ghost use Rattle.survey.specs.internal.Ready.{InOrder, Counted, Next};

use marks::Places;
use refusal::Refusal;
use store::{ChunkNumber, Head, PoolOffset};

mod chunks;

pub use chunks::{Surveyed, survey};

// The next chunk number and pool offset, and what is counted so far.
#[derive(Clone, Copy)]
pub struct Progress {
    pub chunks: ChunkNumber,
    pub filled: PoolOffset,
    pub recipe_length: u32,
    pub new_bytes: u32,
    pub repeated_bytes: u32,
}

impl Progress {
    // Nothing is counted yet.
    fn begun(head: Head) -> Self
        ensures { result ≡ begun_at head }
    {
        Progress {
            chunks: head.chunks,
            filled: head.filled,
            recipe_length: 0,
            new_bytes: 0,
            repeated_bytes: 0,
        }
    }

    // The counts with a repeated chunk of `size` bytes.
    fn with_repeated(self, size: u32) -> Self
        requires recipe_length_bound { self.recipe_length + 1 < 2 ^ 32 }
        requires size_bound { self.repeated_bytes + size < 2 ^ 32 }
        ensures { result ≡ with_repeated self size }
    {
        Progress {
            recipe_length: self.recipe_length + 1,
            repeated_bytes: self.repeated_bytes + size,
            ..self
        }
    }

    // The counts with a new chunk of `size` bytes.
    fn with_new(self, size: u32) -> Self
        requires chunks_bound { self.chunks.0 + 1 < 2 ^ 32 }
        requires size_bound { self.filled.0 + size < 2 ^ 32 }
        requires recipe_length_bound { self.recipe_length + 1 < 2 ^ 32 }
        requires size_bound_2 { self.new_bytes + size < 2 ^ 32 }
        ensures { result ≡ with_new self size }
    {
        Progress {
            chunks: ChunkNumber(self.chunks.0 + 1),
            filled: PoolOffset(self.filled.0 + size),
            recipe_length: self.recipe_length + 1,
            new_bytes: self.new_bytes + size,
            ..self
        }
    }
}

// What is lent to a survey and only read: a store with its index, and the job. All is within the limits, and the index meets
// the store.
#[derive(Clone, Copy)]
struct Lent<'a> {
    head: Head,
    pool: &'a [u8],
    directory: &'a [u32],
    index: &'a [u32],
    job: &'a [u8],
    ghost in_order: { InOrder head pool.now directory.now index.now job.now },
}

impl<'a> Lent<'a> {
    // The next chunk of the job: one that the store holds or an earlier place of the job has is repeated, any other is new.
    // Refused by grounds 6 to 8, with nothing written. It writes the recipe's next place, so it is handed the whole recipe, and
    // the progress says how many places are used.
    fn survey_chunk(
        &self,
        progress: Progress,
        recipe: &mut [u32],
        places: &mut Places,
        chunk: &[u8],
    ) -> Result<Progress, Refusal>
        requires counted { Counted self.now.pool.now (snapshot progress recipe.old) }
        requires placed { Placed self.now.job.now recipe.old places.old.heads places.old.starts progress.recipe_length }
        requires next { Next self.now.job.now (snapshot progress recipe.old) chunk.now }
        ensures outcome { chunk_told result progress recipe.new
            ≡ chunk_outcome self.now.head self.now.pool.now self.now.directory.now self.now.job.now
            (snapshot progress recipe.old) chunk.now }
        ensures heads { places.new.heads
            ≡ heads_after self.now.head self.now.pool.now self.now.directory.now self.now.job.now
            (snapshot progress recipe.old) places.old.heads chunk.now }
        ensures starts { places.new.starts ≡ places.old.starts }
    {
        let size = chunk.len();
        let sum = gear::sum_to(chunk, size);
        let used = progress.recipe_length as usize;
        refusal::unless(used < recipe.len(), Refusal::RecipeFull)?;
        let stored = self.head.chunks;
        let number = search::search(
            self.pool,
            self.directory,
            self.index,
            stored,
            gear::chain_of(sum),
            chunk,
        );
        if number.0 < stored.0 {
            recipe[used] = marks::stored(number, size);
            return Ok(progress.with_repeated(size as u32));
        }
        let own = marks::own_chain(sum);
        if let Some(place) = places.find(recipe, used, self.job, own, chunk) {
            recipe[used] = marks::repeat(place, size);
            return Ok(progress.with_repeated(size as u32));
        }
        let entries = directory::entries(self.directory);
        refusal::unless(
            (progress.chunks.0 as usize) < entries,
            Refusal::DirectoryFull,
        )?;
        let room = self.pool.len() - progress.filled.0 as usize;
        refusal::unless(size <= room, Refusal::PoolFull)?;
        recipe[used] = places.enter(own, used, size);
        Ok(progress.with_new(size as u32))
    }
}
