//! The head of an entry: three words.
ghost use Rattle.std.specs.Prelude.{◌≡◌, ◌<◌};
ghost use Rattle.k42_limits.specs.declared.TheConstants.{OBJECTS};
ghost use Rattle.k42_log.specs.Heads.{answer_small, cell_at, generation_at, generation_or_0, object_at, place_of};

use k42_kinds::Answer;
use k42_limits::OBJECTS;

/// The cells that a log knows are numbered from 0 to below this.
pub const CELLS: u32 = 2_048;

#[derive(Clone, Copy, Debug, PartialEq, Eq)]
pub(crate) struct Head {
    pub(crate) stamp: u64,
    pub(crate) incarnation: u32,
    /// 0 where there is none.
    pub(crate) generation: u32,
    /// The small number of an operation, or the number of a swap.
    pub(crate) small: u32,
    /// `(cell * OBJECTS + object) * 2`, and 1 more where there is a generation.
    pub(crate) place: u16,
    /// The tag of an operation, the number of a layout, or how else the object was to be kept.
    pub(crate) act: u8,
    /// The tag of a reply, or from `REPLY_TAGS` on how a swap was answered, and whether it was one
    /// to a layout.
    pub(crate) answer: u8,
}

const _: () = prove!(size_of::<Head>() == 24);

pub(crate) fn place_of(cell: u32, object: u32, generation: Option<u32>) -> u16
    requires cell { cell < CELLS }
    requires object { object < OBJECTS }
    ensures { result ≡ place_of cell object generation }
{
    let number = cell * OBJECTS as u32 + object;
    match generation {
        None => (number * 2) as u16,
        Some(_) => (number * 2 + 1) as u16,
    }
}

pub(crate) fn generation_or_0(generation: Option<u32>) -> u32
    ensures { result ≡ generation_or_0 generation }
{
    generation.unwrap_or(0)
}

pub(crate) fn answer_small<R>(answer: &Answer<R>) -> u32
    ensures { result ≡ answer_small answer.now }
{
    match answer {
        Answer::Swapped(number) | Answer::Busy(number) | Answer::Abandoned(number) => *number,
        _ => 0,
    }
}

impl Head {
    pub(crate) fn cell(&self) -> u32
        ensures { result ≡ cell_at self.now.place }
    {
        u32::from(self.place) / 2 / OBJECTS as u32
    }

    pub(crate) fn object(&self) -> u32
        ensures { result ≡ object_at self.now.place }
    {
        u32::from(self.place) / 2 % OBJECTS as u32
    }

    pub(crate) fn generation(&self) -> Option<u32>
        ensures { result ≡ generation_at self.now.place self.now.generation }
    {
        if self.place % 2 == 1 {
            Some(self.generation)
        } else {
            None
        }
    }
}
