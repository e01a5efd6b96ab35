// The head of a case: 17 numbers of four bytes, of which six are the lengths of what is lent, seven those of the memories, then
// the seed, the length of the second buffer, which is that of the shares or of the grounds, the operation and the rate.
ghost use Rattle.std.specs.Prelude.{◌≡◌, ◌↔◌, IsTrue, IsOk, IfOk};
ghost use Rattle.replay.specs.Head.{head_buffers, buffers_fit, head_fits, head_lengths, operation_of, head_asked, head_of};

use crate::sample::BadSample;
use le::word_at;
use model::Lengths;

// The most that a case of the sample lends.
pub const MOST_SHEET: usize = 49172;

pub const MOST_BOARD: usize = 144;

pub const MOST_STORE: usize = 462853;

pub const MOST_BIOS: usize = 16385;

pub const MOST_ROM: usize = 131136;

pub const MOST_ANSWERS: usize = 49164;

pub const MOST_SECOND: usize = 131104;

// The lengths of what a case lends.
#[derive(Clone, Copy)]
pub struct BufferLengths {
    pub sheet: usize,
    pub board: usize,
    pub store: usize,
    pub bios: usize,
    pub rom: usize,
    pub answers: usize,
    pub second: usize,
}

impl BufferLengths {
    fn of(head: &[u8]) -> BufferLengths
        ensures { result ≡ head_buffers head.now }
    {
        BufferLengths {
            sheet: word_at(head, 0) as usize,
            board: word_at(head, 4) as usize,
            store: word_at(head, 8) as usize,
            bios: word_at(head, 12) as usize,
            rom: word_at(head, 16) as usize,
            answers: word_at(head, 20) as usize,
            second: word_at(head, 56) as usize,
        }
    }

    // Whether that is no more than a case of the sample lends, for which there is room.
    fn fits(self) -> bool
        ensures { result ≡ buffers_fit self }
    {
        self.sheet <= MOST_SHEET
            && self.board <= MOST_BOARD
            && self.store <= MOST_STORE
            && self.bios <= MOST_BIOS
            && self.rom <= MOST_ROM
            && self.answers <= MOST_ANSWERS
            && self.second <= MOST_SECOND
    }
}

fn memories_of(head: &[u8]) -> Lengths
    ensures { result ≡ head_lengths head.now }
{
    Lengths {
        ewram: word_at(head, 24) as usize,
        iwram: word_at(head, 28) as usize,
        io: word_at(head, 32) as usize,
        palette: word_at(head, 36) as usize,
        vram: word_at(head, 40) as usize,
        oam: word_at(head, 44) as usize,
        sram: word_at(head, 48) as usize,
    }
}

// What a case does: `bts_run`, `bts_run_tariff`, `bts_preview` or `bts_run_grounds`.
#[derive(Clone, Copy)]
pub enum Operation {
    Run,
    RunTariff,
    Preview,
    RunGrounds,
}

impl From<u32> for Operation {
    ghost from_gives = { λ number operation. operation ≡ operation_of number };

    fn from(number: u32) -> Operation {
        match number {
            1 => Operation::RunTariff,
            2 => Operation::Preview,
            3 => Operation::RunGrounds,
            _ => Operation::Run,
        }
    }
}

// What a case does, at which rate, and from which seed its buffers are made.
#[derive(Clone, Copy)]
pub struct Asked {
    pub seed: u32,
    pub operation: Operation,
    pub rate: u32,
}

fn asked_of(head: &[u8]) -> Asked
    ensures { result ≡ head_asked head.now }
{
    Asked {
        seed: word_at(head, 52),
        operation: Operation::from(word_at(head, 60)),
        rate: word_at(head, 64),
    }
}

#[derive(Clone, Copy)]
pub struct Head {
    pub buffers: BufferLengths,
    pub memories: Lengths,
    pub asked: Asked,
}

impl Head {
    pub(crate) fn parse(head: &[u8]) -> Result<Head, BadSample>
        ensures fits { IsOk result ↔ IsTrue (head_fits head.now) }
        ensures value { IfOk result (λ h. h ≡ head_of head.now) }
    {
        let buffers = BufferLengths::of(head);
        if !buffers.fits() {
            return Err(BadSample);
        }
        Ok(Head {
            buffers,
            memories: memories_of(head),
            asked: asked_of(head),
        })
    }
}
