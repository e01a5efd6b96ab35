// The C interface: the four functions of the library `bts` under the same names, each with the contract of the one that it calls.
// include/bts.h documents them for C. A crate of its own, since a crate is a library or a static library, and not both.
#![tactic(auto)]

ghost use Rattle.std.specs.Prelude.{◌≡◌};
ghost use Rattle.model.specs.Outcome.{outcome};
ghost use Rattle.model.specs.Tariff.{bill};
ghost use Rattle.model.specs.Preview.{preview};
ghost use Rattle.model.specs.Grounds.{explain};
ghost use Rattle.examine.specs.Lent.{lending, tariffing, asking, explaining};
ghost use Rattle.bts.specs.Reported.{reported, reported_bill, reported_preview};
ghost use Rattle.bts.specs.Explained.{reported_grounds};

use bts::{Bill, Report};

// Runs a sheet.
#[unsafe(no_mangle)]
pub extern "C" fn bts_run(
    sheet: &[u8],
    board: &mut [u8],
    store: &mut [u8],
    bios: &[u8],
    rom: &[u8],
    answers: &mut [u8],
    ewram: usize,
    iwram: usize,
    io: usize,
    palette: usize,
    vram: usize,
    oam: usize,
    sram: usize,
) -> Report
    ensures { reported result board.new store.new answers.new
        ≡ outcome (lending sheet.now board.old store.old bios.now
        rom.now answers.old
        (record { ewram = ewram; iwram = iwram; io = io; palette = palette; vram = vram; oam = oam; sram = sram })) }
{
    bts::bts_run(
        sheet, board, store, bios, rom, answers, ewram, iwram, io, palette, vram, oam, sram,
    )
}

// Runs a sheet and bills it.
#[unsafe(no_mangle)]
pub extern "C" fn bts_run_tariff(
    sheet: &[u8],
    board: &mut [u8],
    store: &mut [u8],
    bios: &[u8],
    rom: &[u8],
    answers: &mut [u8],
    shares: &mut [u8],
    ewram: usize,
    iwram: usize,
    io: usize,
    palette: usize,
    vram: usize,
    oam: usize,
    sram: usize,
    rate: u32,
) -> Bill
    ensures { reported_bill result board.new store.new answers.new shares.new
        ≡ bill (tariffing (lending sheet.now board.old store.old bios.now
        rom.now answers.old
        (record { ewram = ewram; iwram = iwram; io = io; palette = palette; vram = vram; oam = oam; sram = sram }))
        shares.old rate) }
{
    bts::bts_run_tariff(
        sheet, board, store, bios, rom, answers, shares, ewram, iwram, io, palette, vram, oam,
        sram, rate,
    )
}

// Runs a sheet and tells the grounds of each step's price.
#[unsafe(no_mangle)]
pub extern "C" fn bts_run_grounds(
    sheet: &[u8],
    board: &mut [u8],
    store: &mut [u8],
    bios: &[u8],
    rom: &[u8],
    answers: &mut [u8],
    grounds: &mut [u8],
    ewram: usize,
    iwram: usize,
    io: usize,
    palette: usize,
    vram: usize,
    oam: usize,
    sram: usize,
) -> Report
    ensures { reported_grounds result board.new store.new answers.new grounds.new
        ≡ explain (explaining (lending sheet.now board.old store.old bios.now
        rom.now answers.old
        (record { ewram = ewram; iwram = iwram; io = io; palette = palette; vram = vram; oam = oam; sram = sram }))
        grounds.old) }
{
    bts::bts_run_grounds(
        sheet, board, store, bios, rom, answers, grounds, ewram, iwram, io, palette, vram, oam,
        sram,
    )
}

// Prices a sheet before it is run.
#[unsafe(no_mangle)]
pub extern "C" fn bts_preview(sheet: &[u8], board: &[u8], answers: &mut [u8]) -> Report
    ensures { reported_preview result sheet.now board.now answers.new ≡ preview (asking sheet.now board.now answers.old) }
{
    bts::bts_preview(sheet, board, answers)
}
