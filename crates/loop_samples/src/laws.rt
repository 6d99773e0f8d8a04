ghost use Rattle.rv64_decode.specs.Area.{number_at};
ghost use Rattle.loop_data.specs.Independent.{Role, Keeps, Private, AreTurns, AreCells, AreApart, HaveRoles, Independent};
ghost use Rattle.loop_data.specs.Holds.{FormsHold};
ghost use Rattle.loop_data.specs.Locations.{no_cells, value_of};
ghost use Rattle.loop_data.specs.declared.shape.Level.{Level};
ghost use Rattle.loop_data.specs.Runs.{State, run};
ghost use Rattle.loop_data.specs.Turns.{AtLoop, Stays, seen, covers};
ghost use Rattle.loop_samples.specs.AddLoop.{words, add_loop, areas, arrays, add_roles, AddTurns, AddReads, AddWrites};
ghost use Rattle.loop_samples.specs.ChainLoop.{chain_loop, numbers, chain_roles};
ghost use Rattle.loop_samples.specs.NestLoop.{outer, nest, two_cells, counting, nest_roles, nest_forms, NestPasses, NestPassed};
ghost use Rattle.loop_samples.specs.SumLoop.{sum_loop, powers};
ghost use Rattle.loop_samples.specs.StoreLoop.{store_loop, storing, store_roles};
ghost use Rattle.loop_samples.specs.Refused.{cells_with, cells_without_store, unwritten_roles, fast_forms, other_areas, gap_loop};
ghost use Rattle.loop_samples.specs.Samples.{code_area};
ghost use Rattle.loop_samples.specs.ShiftLoop.{shift_loop, shifting, shift_roles};
ghost use Rattle.loop_samples.specs.Misfits.{cells_without_load, moving_cell, cell_beside, fast_roles, private_counter, array_area, areas_with};
ghost use Rattle.loop_samples.specs.SpinLoop.{spin_loop, spinning};
ghost use Rattle.loop_samples.specs.Checked.{told, add_check, summing_at, nest_check, counting_at};
ghost use Rattle.alias_checks.specs.Answers.{answer};
ghost use Rattle.loop_samples.specs.SerialRun.{state_in, IsSerial};
ghost use Rattle.serial_run.specs.Serial.{State as SerialState, ended, serial};
ghost use Rattle.rv64_decode.specs.declared.outcome.Next.TheVariants.{At};
ghost use Rattle.std.specs.Prelude.{ℕ, true, false, None, [], ◌∷◌, ◌↔◌, ◌≡◌, ◌<◌, ◌≤◌, ◌+◌, ◌-◌, ◌^◌};

/// The loop that adds arrays of 20 numbers: its turns, the bytes that they read and write, and how many
/// of them stay.
pub fn add_loop_turns()
    ensures at { AtLoop areas add_loop arrays }
    ensures turns { AddTurns }
    ensures reads { AddReads }
    ensures writes { AddWrites }
    ensures stays { Stays add_loop arrays 19 }
{}

/// The 19 turns that stay are independent.
pub fn add_loop_is_independent()
    ensures { Independent add_loop no_cells add_roles arrays 19 }
{}

/// Where a turn stores what the next one loads, two turns are not apart, while all else holds.
pub fn turns_of_a_chain_depend()
    ensures turns { AreTurns chain_loop numbers 2 }
    ensures cells { AreCells chain_loop no_cells numbers 2 }
    ensures locations { HaveRoles chain_loop no_cells chain_roles numbers 2 }
    ensures not { ¬ AreApart chain_loop no_cells numbers 2 }
{}

/// Where a turn needs a register of the turn before, no roles fit, while all else holds.
pub fn a_carried_sum_is_no_role()
    ensures turns { AreTurns sum_loop powers 2 }
    ensures cells { AreCells sum_loop no_cells powers 2 }
    ensures apart { AreApart sum_loop no_cells powers 2 }
    ensures not { (roles : ℕ → Role) → ¬ HaveRoles sum_loop no_cells roles powers 2 }
{}

/// The nest with two cells: the passes that one counts by hand at each visit of its four turns, and the
/// values of its cells at the entry, of which the second has 4 bytes that stand for -5.
pub fn nest_passes()
    ensures passes { NestPasses }
    ensures passed { NestPassed }
    ensures counter { value_of two_cells counting.regs counting 32 ≡ 100 }
    ensures number { value_of two_cells counting.regs counting 33 ≡ 2 ^ 64 - 5 }
{}

/// The forms at its words hold in the 3 turns that stay.
pub fn nest_forms_hold()
    ensures { FormsHold nest two_cells nest_forms counting 3 }
{}

/// Those turns are independent, the cell that each of them stores notwithstanding.
pub fn nest_is_independent()
    ensures { Independent outer two_cells nest_roles counting 3 }
{}

/// A run stays at a loop for one number of turns alone.
pub fn stays_for_one_number()
    ensures { (l : Level) (s : State) (a b : ℕ) → Stays l s a → Stays l s b → a ≡ b }
{}

/// The turn that leaves is not among those that stay, nor is one by a word that is not the loop's, nor one
/// that never arrives again.
pub fn wrong_turns_are_refused()
    ensures leaving { ¬ AreTurns add_loop arrays 20 }
    ensures outside { ¬ AreTurns gap_loop arrays 1 }
    ensures endless { ¬ AreTurns spin_loop spinning 1 }
{}

/// Cells that do not fit the nest: one that is stored to against its mark, one of which a use is left out,
/// and one of 4 bytes where 8 are loaded.
pub fn wrong_cells_are_refused()
    ensures kept { ¬ AreCells outer (cells_with true false) counting 1 }
    ensures unused { ¬ AreCells outer cells_without_store counting 1 }
    ensures narrow { ¬ AreCells outer (cells_with false true) counting 1 }
{}

/// Two turns that store to the same bytes are not apart, though none loads a byte.
pub fn turns_with_one_store_depend()
    ensures turns { AreTurns store_loop storing 2 }
    ensures cells { AreCells store_loop no_cells storing 2 }
    ensures locations { HaveRoles store_loop no_cells store_roles storing 2 }
    ensures not { ¬ AreApart store_loop no_cells storing 2 }
{}

/// A location that no word writes is not private, be it one of all or the only one.
pub fn unwritten_is_not_private()
    ensures all { ¬ HaveRoles add_loop no_cells (λ r. Private) arrays 1 }
    ensures one { ¬ HaveRoles add_loop no_cells unwritten_roles arrays 1 }
{}

/// A form with a wrong stride does not hold in the second turn.
pub fn wrong_stride_is_refused()
    ensures { ¬ FormsHold nest two_cells fast_forms counting 2 }
{}

/// After two turns the loop that adds is at its header again, with a sum other than 0 stored; it is not at
/// the loop of areas whose code differs in one byte, nor at its header after one word.
pub fn code_tells_the_loop()
    ensures again { AtLoop areas add_loop (run arrays 16) }
    ensures sum { number_at 8 (run arrays 16).memory 0x2_0148 ≡ 3 }
    ensures other { ¬ AtLoop other_areas add_loop arrays }
    ensures within { ¬ AtLoop areas add_loop (run arrays 1) }
{}

/// The run of these definitions is the serial run as long as it goes on: from a machine without an ending,
/// the n-th state has pc, registers and memory of the n-th machine, which has no ending either.
pub fn run_is_serial()
    ensures { (s : SerialState) (n pc : ℕ) → ended s ≡ None → (run (state_in s) n).next ≡ At pc
        → IsSerial (run (state_in s) n) s (serial n s) }
{}

/// A turn that stores what the turn before has loaded is not apart from it.
pub fn turns_of_a_shift_depend()
    ensures turns { AreTurns shift_loop shifting 2 }
    ensures cells { AreCells shift_loop no_cells shifting 2 }
    ensures locations { HaveRoles shift_loop no_cells shift_roles shifting 2 }
    ensures not { ¬ AreApart shift_loop no_cells shifting 2 }
{}

/// The bytes of an access are those from its address on.
pub fn bytes_of_an_access()
    ensures { (addr count b : ℕ) → (covers addr count b ≡ true) ↔ ((addr ≤ b) × (b < addr + count)) }
{}

/// Cells, roles, areas and stays that do not fit the loops.
pub fn misfits_are_refused()
    ensures unloaded { ¬ AreCells outer cells_without_load counting 1 }
    ensures moving { ¬ AreCells chain_loop moving_cell numbers 2 }
    ensures beside { ¬ AreApart store_loop cell_beside storing 2 }
    ensures kept { ¬ HaveRoles add_loop no_cells (λ r. Keeps) arrays 1 }
    ensures fast { ¬ HaveRoles add_loop no_cells fast_roles arrays 1 }
    ensures counter { ¬ HaveRoles outer two_cells private_counter counting 1 }
    ensures seen { seen add_loop arrays 10 ≡ 0x1_00F4 ∷ 0x1_00F0 ∷ [] }
    ensures low { ¬ AtLoop (areas_with (record array_area { low = 0x3_0000 })) add_loop arrays }
    ensures short { ¬ AtLoop (areas_with (record array_area { bytes = [] })) add_loop arrays }
    ensures readable { ¬ AtLoop (areas_with (record array_area { readable = false })) add_loop arrays }
    ensures writable { ¬ AtLoop (areas_with (record array_area { writable = false })) add_loop arrays }
    ensures executable { ¬ AtLoop (areas_with (record array_area { executable = true })) add_loop arrays }
    ensures alone { ¬ AtLoop (code_area 0x1_00F0 words ∷ []) add_loop arrays }
    ensures gap { ¬ Stays gap_loop arrays 0 }
{}

/// The check of the loop that adds arrays tells the 19 turns that stay. The sums may take the place of the first array,
/// and lie where the last of 19 still has room, but not begin in the second element of an array that is read.
#[tactic(auto, unfolding(alias_checks::specs::Entry::entry, alias_checks::specs::Entry::start_value, alias_checks::specs::TurnTests::turns_of, alias_checks::specs::TurnTests::few_stays, alias_checks::specs::AccessTests::access_fits, alias_checks::specs::AccessTests::place_of, alias_checks::specs::AccessTests::pair_passes, alias_checks::specs::Areas::in_memory))]
pub fn add_loop_is_checked()
    ensures divided { answer add_check arrays.regs arrays.memory ≡ told 19 1 }
    ensures in_place { answer add_check (summing_at 0x2_0000) areas ≡ told 19 1 }
    ensures to_the_end { answer add_check (summing_at 0x2_0148) areas ≡ told 19 1 }
    ensures beyond { answer add_check (summing_at 0x2_0150) areas ≡ None }
    ensures overlapping { answer add_check (summing_at 0x2_0008) areas ≡ None }
    ensures second { answer add_check (summing_at 0x2_00A8) areas ≡ None }
{}

/// The check of the nest with two cells tells one turn less than it goes round, of 3 passes each, where the cells are
/// aligned and may be read, and the first of them written.
#[tactic(auto, unfolding(alias_checks::specs::CellTests::cell_fits, alias_checks::specs::CellTests::are_clear, alias_checks::specs::Entry::entry, alias_checks::specs::Entry::start_value, alias_checks::specs::TurnTests::turns_of, alias_checks::specs::TurnTests::few_stays, alias_checks::specs::Areas::in_memory))]
pub fn nest_is_checked()
    ensures divided { answer nest_check (counting_at 0x2_0000 20) counting.memory ≡ told 19 3 }
    ensures least { answer nest_check (counting_at 0x2_0000 17) counting.memory ≡ told 16 3 }
    ensures fewer { answer nest_check (counting_at 0x2_0000 16) counting.memory ≡ None }
    ensures misaligned { answer nest_check (counting_at 0x2_0004 20) counting.memory ≡ None }
    ensures outside { answer nest_check (counting_at 0x2_0008 20) counting.memory ≡ None }
    ensures in_code { answer nest_check (counting_at 0x1_0000 20) counting.memory ≡ None }
{}
