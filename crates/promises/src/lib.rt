// What is promised of the four exported functions, `bts_run`, `bts_run_tariff`, `bts_run_grounds` and `bts_preview`, beyond the
// equation that each one's contract is. A promise is the contract of a function that does nothing: its statement stands in the
// file of specs/ that the clause names (`run` is specs/Run.antt), and the law that proves it in proofs/, by the function's name.
#![tactic(auto)]

ghost use Rattle.promises.specs.Run as run;
ghost use Rattle.promises.specs.Tariff as tariff;
ghost use Rattle.promises.specs.Preview as preview;
ghost use Rattle.promises.specs.Grounds as grounds;
ghost use Rattle.promises.specs.Blocks as blocks;
ghost use Rattle.promises.specs.Versions as versions;
ghost use Rattle.promises.specs.Accesses as accesses;
ghost use Rattle.promises.specs.Figures as figures;

// ---- a run, `bts_run`

// ---- total and safe: what it is refused with, and what it leaves

// Each number from 1 to 7 exactly when its row of the table holds and no earlier one does, and 0 exactly when none does.
#[tactic(auto, using(crate::proofs::Run::table))]
pub fn table()
    ensures { run.EachNumber }
{}

// And no other number.
#[tactic(auto, using(crate::proofs::Run::refusals))]
pub fn refusals()
    ensures { run.NoOtherNumber }
{}

// Number 0 exactly when no condition of the table holds.
#[tactic(auto, using(crate::proofs::Run::accepts))]
pub fn accepts()
    ensures { run.AcceptedExactly }
{}

// The index: 0 for 1 to 6, the first faulty record for 7, the number of records for 0.
#[tactic(auto, using(crate::proofs::Run::index))]
pub fn index()
    ensures { run.IndexTold }
{}

// The record that 7 names is the lower of two, the first with a fault of kind or size and the first with one of the
// other fields.
#[tactic(auto, using(crate::proofs::Run::first_of_two))]
pub fn first_of_two()
    ensures { run.FirstOfTwo }
{}

// The index fits its 32 bits.
#[tactic(auto, using(crate::proofs::Run::few_records))]
pub fn few_records()
    ensures { run.SmallIndex }
{}

// A refusal gives total 0 and changes no byte.
#[tactic(auto, using(crate::proofs::Run::refuses))]
pub fn refuses()
    ensures { run.RefusedUntouched }
{}

// An accepted run over bytes leaves a sound board.
#[tactic(auto, using(crate::proofs::Run::leaves_sound))]
pub fn leaves_sound()
    ensures { run.SoundLeft }
{}

// Its total is at most 4096 · (2^32 - 1), far from 64 bits.
#[tactic(auto, using(crate::proofs::Run::small_total))]
pub fn small_total()
    ensures { run.SmallTotal }
{}

// ---- the same for every memory

// In bytes and numbers alone: any two accepted runs whose sheets and first boards are alike, whatever memories they are lent,
// agree in these figures.
#[tactic(auto, using(crate::proofs::Run::same_figures))]
pub fn same_figures()
    ensures { run.SameFigures }
{}

// An accepted run by itself: each answer as the definitions have it, the total as the sum of their cycles, and the limits.
#[tactic(auto, using(crate::proofs::Run::accounts))]
pub fn accounts()
    ensures { run.Accounted }
{}

// The limits of an accepted run's total, in bytes and numbers alone.
#[tactic(auto, using(crate::proofs::Run::total_within))]
pub fn total_within()
    ensures { run.TotalWithin }
{}

// The whole of it, in the model's words: this of every byte that is compared, and what each run has by itself.
#[tactic(auto, using(crate::proofs::Run::same_times))]
pub fn same_times()
    ensures { run.WholeDemand3 }
{}

// ---- whether a store landed

// Byte 8 of a WRITE's answer is the number of memory bytes that its store wrote: each at a place of its own, which holds
// afterwards what was stored there, and no other byte changes.
#[tactic(auto, using(crate::proofs::Run::landed_told))]
pub fn landed_told()
    ensures { run.LandedTold }
{}

// Of two runs: with equal lengths, in one display mode, a WRITE of any two values at one address tells one number.
#[tactic(auto, using(crate::proofs::Run::landed_alike))]
pub fn landed_alike()
    ensures { run.LandedAlike }
{}

// Which bytes land, and so how many, is the same for every stored value.
#[tactic(auto, using(crate::proofs::Run::same_places))]
pub fn same_places()
    ensures { run.SamePlaces }
{}

// Of an expanded video byte each of the two bytes counts that lies within the memory.
#[tactic(auto, using(crate::proofs::Run::expanded_byte))]
pub fn expanded_byte()
    ensures { run.ExpandedByte }
{}

// ---- a run under a tariff, `bts_run_tariff`

// Each number exactly when its row of the tariff's table holds and no earlier one does, and 0 exactly when none does.
#[tactic(auto, using(crate::proofs::Tariff::tariff_table))]
pub fn tariff_table()
    ensures { tariff.BilledNumber }
{}

// And no other number.
#[tactic(auto, using(crate::proofs::Tariff::tariff_refusals))]
pub fn tariff_refusals()
    ensures { tariff.NoOtherBilled }
{}

// Number 0 exactly when the run's conditions hold, there is room for the shares and the rate is fair.
#[tactic(auto, using(crate::proofs::Tariff::tariff_accepts))]
pub fn tariff_accepts()
    ensures { tariff.BillAccepted }
{}

// Number 8 exactly when the rate is not fair and nothing else is wrong.
#[tactic(auto, using(crate::proofs::Tariff::refuses_rate))]
pub fn refuses_rate()
    ensures { tariff.RateRefused }
{}

// The index: 0 for 8 too.
#[tactic(auto, using(crate::proofs::Tariff::tariff_index))]
pub fn tariff_index()
    ensures { tariff.BilledIndex }
{}

// The record that 7 names is the lower of two, as a run's.
#[tactic(auto, using(crate::proofs::Tariff::tariff_first_of_two))]
pub fn tariff_first_of_two()
    ensures { tariff.BilledFirstOfTwo }
{}

// The index fits its 32 bits.
#[tactic(auto, using(crate::proofs::Tariff::tariff_few_records))]
pub fn tariff_few_records()
    ensures { tariff.SmallBilledIndex }
{}

// A refusal gives total and charge 0 and changes no byte, the shares' among them.
#[tactic(auto, using(crate::proofs::Tariff::tariff_refuses))]
pub fn tariff_refuses()
    ensures { tariff.RefusedUnbilled }
{}

// With room for the shares and a fair rate it is the run's outcome, refused or not; so all that is promised of a run holds
// here.
#[tactic(auto, using(crate::proofs::Tariff::whole_run))]
pub fn whole_run()
    ensures { tariff.BilledRun }
{}

// The charge of an accepted run is its total × rate / 1,000,000, rounded up to the cent.
#[tactic(auto, using(crate::proofs::Tariff::charged_up))]
pub fn charged_up()
    ensures { tariff.ChargedUp }
{}

// An accepted run by itself: its charge, its shares, their sum and bounds, and that nothing wraps.
#[tactic(auto, using(crate::proofs::Tariff::bills))]
pub fn bills()
    ensures { tariff.BilledFairly }
{}

// Any two accepted runs under one rate with alike sheets and boards, whatever memories they are lent: the same shares and
// charge, and all else that two runs have in common.
#[tactic(auto, using(crate::proofs::Tariff::same_bills))]
pub fn same_bills()
    ensures { tariff.SameBills }
{}

// ---- a preview, `bts_preview`

// For all memories that the run accepts it is the run on a copy of the board, but for the named zeros, and it is accepted
// exactly when the run with some memories is.
#[tactic(auto, using(crate::proofs::Preview::as_run))]
pub fn as_run()
    ensures { preview.PreviewIsRun }
{}

// Each number exactly when its row of the preview's table holds and no earlier one does, and 0 exactly when none does.
#[tactic(auto, using(crate::proofs::Preview::preview_table))]
pub fn preview_table()
    ensures { preview.PreviewedNumber }
{}

// And no other number: the run's, without 4.
#[tactic(auto, using(crate::proofs::Preview::preview_refusals))]
pub fn preview_refusals()
    ensures { preview.NoOtherPreviewed }
{}

// The index: 0 for the others, the first faulty record for 7, the number of records for 0.
#[tactic(auto, using(crate::proofs::Preview::preview_index))]
pub fn preview_index()
    ensures { preview.PreviewedIndex }
{}

// The record that 7 names is the lower of two, as a run's.
#[tactic(auto, using(crate::proofs::Preview::preview_first_of_two))]
pub fn preview_first_of_two()
    ensures { preview.PreviewedFirstOfTwo }
{}

// The index fits its 32 bits.
#[tactic(auto, using(crate::proofs::Preview::preview_few_records))]
pub fn preview_few_records()
    ensures { preview.SmallPreviewedIndex }
{}

// Sheet and board are as lent, and a refusal gives total 0 and changes no byte of the answers.
#[tactic(auto, using(crate::proofs::Preview::preview_leaves))]
pub fn preview_leaves()
    ensures { preview.PreviewUnwritten }
{}

// An accepted one's total lies within a run's limits.
#[tactic(auto, using(crate::proofs::Preview::preview_limits))]
pub fn preview_limits()
    ensures { preview.PreviewLimits }
{}

// Any two accepted ones with alike sheets and boards: every byte of their answers, and the total.
#[tactic(auto, using(crate::proofs::Preview::same_previews))]
pub fn same_previews()
    ensures { preview.SamePreviews }
{}

// ---- a run with the grounds of its prices, `bts_run_grounds`

// Each number exactly when its row of the table holds and no earlier one does, and 0 exactly when none does.
#[tactic(auto, using(crate::proofs::Grounds::grounds_table))]
pub fn grounds_table()
    ensures { grounds.ExplainedNumber }
{}

// And no other number: the run's seven.
#[tactic(auto, using(crate::proofs::Grounds::grounds_refusals))]
pub fn grounds_refusals()
    ensures { grounds.NoOtherExplained }
{}

// Number 0 exactly when the run's conditions hold and there is room for the grounds.
#[tactic(auto, using(crate::proofs::Grounds::grounds_accepts))]
pub fn grounds_accepts()
    ensures { grounds.ExplainAccepted }
{}

// The index: 0 for 1 to 6, the first faulty record for 7, the number of records for 0.
#[tactic(auto, using(crate::proofs::Grounds::grounds_index))]
pub fn grounds_index()
    ensures { grounds.ExplainedIndex }
{}

// The record that 7 names is the lower of two, as a run's.
#[tactic(auto, using(crate::proofs::Grounds::grounds_first_of_two))]
pub fn grounds_first_of_two()
    ensures { grounds.ExplainedFirstOfTwo }
{}

// The index fits its 32 bits.
#[tactic(auto, using(crate::proofs::Grounds::grounds_few_records))]
pub fn grounds_few_records()
    ensures { grounds.SmallExplainedIndex }
{}

// A refusal gives total 0 and changes no byte, those of the grounds among them.
#[tactic(auto, using(crate::proofs::Grounds::grounds_refuses))]
pub fn grounds_refuses()
    ensures { grounds.RefusedUntold }
{}

// With room for the grounds it is the run's outcome, refused or not; so all that is promised of a run holds here.
#[tactic(auto, using(crate::proofs::Grounds::grounds_whole_run))]
pub fn grounds_whole_run()
    ensures { grounds.ExplainedRun }
{}

// An accepted run by itself: the grounds of each step, that they make its cycles, and that a ground is named exactly when its
// condition decides the beat.
#[tactic(auto, using(crate::proofs::Grounds::explains))]
pub fn explains()
    ensures { grounds.GroundsGiven }
{}

// A byte says which ground it is: no two grounds have one byte.
#[tactic(auto, using(crate::proofs::Grounds::ground_bytes))]
pub fn ground_bytes()
    ensures { grounds.GroundBytes }
{}

// Any two accepted runs with alike sheets and boards, whatever memories they are lent: the same grounds, and all else
// that two runs have in common.
#[tactic(auto, using(crate::proofs::Grounds::same_grounds))]
pub fn same_grounds()
    ensures { grounds.SameReasons }
{}

// ---- blocks

// In a version 2 sheet a record of kind 10 or 11 is without fault exactly when its size is 4, flag and zero byte are 0 and its
// value is 1 to 16; it then stands for as many words, from its address lowered to a multiple of 4 on.
#[tactic(auto, using(crate::proofs::Blocks::block_records))]
pub fn block_records()
    ensures { blocks.BlockRecords }
{}

// Byte 8 of a BLOCK WRITE's answer is the number of memory bytes that its words' stores wrote: each at a place of its own,
// where there is 0 afterwards, and no other byte changes.
#[tactic(auto, using(crate::proofs::Blocks::block_landed_told))]
pub fn block_landed_told()
    ensures { blocks.BlockLandedTold }
{}

// One block tells the same twice, places and number, in any two accepted runs whose memories have the same lengths.
#[tactic(auto, using(crate::proofs::Blocks::same_block))]
pub fn same_block()
    ensures { blocks.SameBlockTold }
{}

// A block is its words: board, store, total, answers and grounds of an accepted run are those of the run in which each block
// is written out as so many READ 4, or WRITE 4 of 0.
#[tactic(auto, using(crate::proofs::Blocks::block_words))]
pub fn block_words()
    ensures { blocks.BlocksAreWords }
{}

// A second accepted call, whose sheet has the records of the first with each block written out, leaves and answers the same.
#[tactic(auto, using(crate::proofs::Blocks::as_words))]
pub fn as_words()
    ensures { blocks.SameAsWords }
{}

// There is such a sheet, and it is accepted, where it has room.
#[tactic(auto, using(crate::proofs::Blocks::written_runs))]
pub fn written_runs()
    ensures { blocks.WrittenSheetRuns }
{}

// The grounds of a block are those of its words, one behind the other.
#[tactic(auto, using(crate::proofs::Blocks::told_words))]
pub fn told_words()
    ensures { blocks.GroundsOfWords }
{}

// A block of either kind costs at most 288 cycles.
#[tactic(auto, using(crate::proofs::Blocks::dearest_block))]
pub fn dearest_block()
    ensures { blocks.DearestBlock }
{}

// ---- the two versions of a sheet

// ---- every version but 1 and 2 is refused with 2

// A run gives number 2 exactly for a marked sheet whose version is neither 1 nor 2.
#[tactic(auto, using(crate::proofs::Versions::other_versions))]
pub fn other_versions()
    ensures { versions.OthersRefused }
{}

// So does a run under a tariff.
#[tactic(auto, using(crate::proofs::Versions::tariff_other_versions))]
pub fn tariff_other_versions()
    ensures { versions.OthersUnbilled }
{}

// So does a run with grounds.
#[tactic(auto, using(crate::proofs::Versions::grounds_other_versions))]
pub fn grounds_other_versions()
    ensures { versions.OthersUnexplained }
{}

// So does a preview.
#[tactic(auto, using(crate::proofs::Versions::preview_other_versions))]
pub fn preview_other_versions()
    ensures { versions.OthersUnpreviewed }
{}

// ---- a version 1 sheet means what it did before there was a version 2

// A run of it: by definitions of that time, down to a step's time and price.
#[tactic(auto, using(crate::proofs::Versions::as_before))]
pub fn as_before()
    ensures { versions.RunAsBefore }
{}

// Its bill.
#[tactic(auto, using(crate::proofs::Versions::tariff_as_before))]
pub fn tariff_as_before()
    ensures { versions.BillAsBefore }
{}

// Its grounds.
#[tactic(auto, using(crate::proofs::Versions::grounds_as_before))]
pub fn grounds_as_before()
    ensures { versions.GroundsAsBefore }
{}

// Its preview.
#[tactic(auto, using(crate::proofs::Versions::preview_as_before))]
pub fn preview_as_before()
    ensures { versions.PreviewAsBefore }
{}

// And a reader of that time refuses a marked version 2 sheet with 2: in a run, a bill, a preview and a run with grounds.
#[tactic(auto, using(crate::proofs::Versions::two_unknown_before))]
pub fn two_unknown_before()
    ensures { versions.TwoUnknownBefore }
{}

// ---- Thumb's POP in version 2: price, `cart_idle` and force flag of each opcode, as an accepted run answers and leaves them

// At 0xBCxx and 0xBDxx POP is found: one cycle more, `cart_idle` one more, and the flag as the disable bug has it.
#[tactic(auto, using(crate::proofs::Versions::pop_at_bc))]
pub fn pop_at_bc()
    ensures { versions.PopFound }
{}

// At 0xBAxx and 0xBBxx no longer: the fetch alone, and no flag.
#[tactic(auto, using(crate::proofs::Versions::pop_at_ba))]
pub fn pop_at_ba()
    ensures { versions.PopLost }
{}

// Every other opcode, Thumb's (2) and ARM's (4), answers and leaves what it does in version 1.
#[tactic(auto, using(crate::proofs::Versions::other_opcodes))]
pub fn other_opcodes()
    ensures { versions.OtherOpcodes }
{}

// ---- runs of data accesses

// Without a previous access every price is that of a first beat taken as nonsequential: in ROM N, of a word N + S.
#[tactic(auto, using(crate::proofs::Accesses::first_cost))]
pub fn first_cost()
    ensures { accesses.FirstAccess }
{}

// Outside ROM it is so after any access.
#[tactic(auto, using(crate::proofs::Accesses::plain_cost))]
pub fn plain_cost()
    ensures { accesses.PlainAccess }
{}

// An access that goes on in ROM where the one before ended, and begins no block, costs S, of a word 2 S, whatever was read or
// written.
#[tactic(auto, using(crate::proofs::Accesses::continued_cost))]
pub fn continued_cost()
    ensures { accesses.ContinuedAccess }
{}

// And no other access in ROM is sequential.
#[tactic(auto, using(crate::proofs::Accesses::sequential_exactly))]
pub fn sequential_exactly()
    ensures { accesses.SequentialExactly }
{}

// Two words in a row within a block of ROM, of which the first is nonsequential, cost N + 3 S.
#[tactic(auto, using(crate::proofs::Accesses::two_words))]
pub fn two_words()
    ensures { accesses.TwoWords }
{}

// What an access costs depends on WAITCNT, the previous access and itself: on no earlier one, and on nothing that is read or
// written.
#[tactic(auto, using(crate::proofs::Accesses::only_the_previous))]
pub fn only_the_previous()
    ensures { accesses.ByPreviousAlone }
{}

// READ, WRITE and the words of a block set the previous access, IDLE, PC and LATCH keep it, the other four clear it.
#[tactic(auto, using(crate::proofs::Accesses::previous_by_kind))]
pub fn previous_by_kind()
    ensures { accesses.PreviousAfter }
{}

// An access costs 1 to 18 cycles after any other.
#[tactic(auto, using(crate::proofs::Accesses::access_limits))]
pub fn access_limits()
    ensures { accesses.AccessLimits }
{}

// ---- single inputs

// The starred worked figures, all.
#[tactic(auto, using(crate::proofs::Figures::worked_figures))]
pub fn worked_figures()
    ensures { figures.StarredFigures }
{}
