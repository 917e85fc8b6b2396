//! Worked cases of the infinite heap: what its definitions give at the edges of their rules, and the runs of small
//! guests. A law says that what is decided is right, and stays true where less is decided; these cases fix how much
//! is. Each function does nothing, and its contract is computed from the definitions.
#![tactic(auto)]

ghost use Rattle.std.specs.Prelude.{◌≡◌, [], ◌∷◌};
ghost use Rattle.std.specs.declared.option.Option.TheVariants.{Some, None};
ghost use Rattle.infinite_heap.specs.declared.access.AccessKind.TheVariants.{Load, Store, Touch, Again};
ghost use Rattle.infinite_heap.specs.declared.fault.FaultKind.TheVariants as FaultKind;
ghost use Rattle.infinite_heap.specs.declared.fault.Why.TheVariants as Why;
ghost use Rattle.infinite_heap.specs.declared.value.Cell.TheVariants.{Byte, Unset};
ghost use Rattle.infinite_heap.specs.Covered.{no_cures};
ghost use Rattle.infinite_heap.specs.InfiniteRun.{InfExit, InfFault, InfBlur};
ghost use Rattle.worked_cases.specs.Cells.{Joined, LowParts, Loaded, Stored, Counted};
ghost use Rattle.worked_cases.specs.Decisions.{PointersInOrder, PointersInSignedOrder, NumbersInOrder, NumbersInSignedOrder, Unordered, OneObject, TwoObjects, PointerAndNumber, OtherValues};
ghost use Rattle.worked_cases.specs.Guests.{empty_objects, largest_size, past_the_end, before_the_start, frees_twice, frees_later, reads_freed, reads_later, prints_pointer, copies_pointer, seeks_zero, grows_zeros, reallocates, frees_others, skips_argument, odd_return, misaligned_return, pointer_return, pointer_size, fills_to_end, compares_numbers, tags_pointer, joins_halves, echoes, prints_unset, misaligned_load, misaligned_store, misaligned_branch, region_address, unknown_address, pointer_call, pointer_exit, other_call, pointer_length, region_span, runs_pointer, jumps_to_pointer, frees_numbers, aligns_pointers, masks_too_much, asks_alignments, largest_aligned, pointer_alignment, aligned_pointer_size, allocates_aligned, skips_before_alignment, reallocates_aligned, hi};
ghost use Rattle.worked_cases.specs.Operations.{TwoNumbers, IdleNumber, PointerMoved, Distance, MaskedLowPart, LowBitsChanged, LowPartAtTop, CellByCell, CellsShifted, OrderDecided, LowPartsAlone, EverythingElse};
ghost use Rattle.worked_cases.specs.Patches.{one_pad, one_front, one_deferral, CoversGuest, WithinReach, WithinFront, InTime, OutOfTime, Reach, FrontApart};
ghost use Rattle.worked_cases.specs.Runs.{run_of, run_on, zeroed_run_of, skipping_run_of, running_run_of, aligning_run_of, zeroed_aligning_run_of, Ends, Leaves, Uses, used, kept, gone, aligned_to, stored_by, asks_after};

/// What each row of the table of operations gives, inside of its rule and right behind it: docs/infinite-heap.md,
/// "Worked values".
pub fn operations_give()
    ensures two_numbers { TwoNumbers }
    ensures idle_number { IdleNumber }
    ensures pointer_moved { PointerMoved }
    ensures pointer_distance { Distance }
    ensures low_part_masked { MaskedLowPart }
    ensures low_bits_changed { LowBitsChanged }
    ensures low_part_shifted { LowPartAtTop }
    ensures cell_by_cell { CellByCell }
    ensures cells_shifted { CellsShifted }
    ensures order_decided { OrderDecided }
    ensures low_parts_alone { LowPartsAlone }
    ensures everything_else { EverythingElse }
{}

/// Which orders are decided, and how.
pub fn orders_are_decided()
    ensures pointers { PointersInOrder }
    ensures pointers_signed { PointersInSignedOrder }
    ensures numbers { NumbersInOrder }
    ensures numbers_signed { NumbersInSignedOrder }
    ensures undecided { Unordered }
{}

/// Which equalities are decided, how, and what they look at.
pub fn equalities_are_decided()
    ensures one_object { OneObject }
    ensures two_objects { TwoObjects }
    ensures pointer_and_number { PointerAndNumber }
    ensures others { OtherValues }
{}

/// How cells make values and values cells, in memory too.
pub fn cells_are_values()
    ensures joined { Joined }
    ensures low_parts { LowParts }
    ensures loaded { Loaded }
    ensures stored { Stored }
    ensures counted { Counted }
{}

/// Which records patches cover: up to which byte and up to which clock.
pub fn accesses_are_covered()
    ensures within_reach { WithinReach }
    ensures within_front { WithinFront }
    ensures in_time { InTime }
    ensures out_of_time { OutOfTime }
    ensures reach { Reach }
    ensures front_apart { FrontApart }
{}

/// How small guests with heap calls end on the infinite heap, after how many counted steps, and what they print:
/// docs/infinite-run.md, "Worked runs".
pub fn guests_end()
    ensures empty_objects { Ends (run_of empty_objects) (InfExit 1) 11 [] }
    ensures largest_size { Ends (run_of largest_size) (InfExit 0) 12 [] }
    ensures past_the_end { Ends (run_of past_the_end) (InfExit 0) 18 (111 ∷ []) }
    ensures before_the_start { Ends (run_of before_the_start) (InfExit 0) 18 (111 ∷ []) }
    ensures frees_twice { Ends (run_of frees_twice) (InfExit 0) 13 [] }
    ensures frees_later { Ends (run_of frees_later) (InfExit 0) 16 [] }
    ensures reads_freed { Ends (run_of reads_freed) (InfExit 0) 23 (7 ∷ []) }
    ensures reads_later { Ends (run_of reads_later) (InfExit 0) 26 (7 ∷ []) }
    ensures prints_pointer { Ends (run_of prints_pointer) (InfBlur Why.Output 0x10030) 9 [] }
    ensures copies_pointer { Ends (run_of copies_pointer) (InfExit 0) 34 (107 ∷ []) }
    ensures seeks_zero { Ends (run_of seeks_zero) (InfBlur Why.Branch 0x10074) 33 [] }
    ensures seeks_zero_zeroed { Ends (zeroed_run_of seeks_zero) (InfExit 8) 37 [] }
    ensures grows_zeros { Ends (run_of grows_zeros) (InfExit 5) 14 [] }
    ensures reallocates { Ends (run_of reallocates) (InfBlur Why.Realloc 0x1000c) 18 [] }
    ensures frees_others { Ends (run_of frees_others) (InfBlur Why.Freed 0x10004) 14 [] }
    ensures skips_argument { Ends (skipping_run_of skips_argument) (InfExit 7) 9 [] }
    ensures odd_return { Ends (run_of odd_return) (InfExit 9) 8 [] }
    ensures misaligned_return { Ends (run_of misaligned_return) (InfFault FaultKind.Jump 0x10000) 5 [] }
    ensures pointer_return { Ends (run_of pointer_return) (InfBlur Why.Target 0x10000) 5 [] }
    ensures pointer_size { Ends (run_of pointer_size) (InfBlur Why.Size 0x10000) 4 [] }
    ensures fills_to_end { Ends (run_of fills_to_end) (InfExit 7) 17 [] }
    ensures compares_numbers { Ends (run_of compares_numbers) (InfExit 5) 13 [] }
    ensures tags_pointer { Ends (run_of tags_pointer) (InfExit 1) 13 [] }
    ensures joins_halves { Ends (run_of joins_halves) (InfExit 2) 15 [] }
    ensures echoes { Ends (run_on hi echoes) (InfExit 0) 23 hi }
    ensures echoes_on_err { (run_on hi echoes).err ≡ 104 ∷ [] }
    ensures echoes_what_is_read { (run_on hi echoes).state.place ≡ 3 }
    ensures misaligned_load { Ends (run_of misaligned_load) (InfFault FaultKind.LoadAlign 0x10018) 3 [] }
    ensures misaligned_store { Ends (run_of misaligned_store) (InfFault FaultKind.StoreAlign 0x10018) 3 [] }
    ensures misaligned_branch { Ends (run_of misaligned_branch) (InfFault FaultKind.Jump 0x10024) 7 [] }
    ensures other_call { Ends (run_of other_call) (InfExit 218) 7 [] }
    ensures frees_numbers { Ends (run_of frees_numbers) (InfExit 0) 13 [] }
    ensures aligns_pointers { Ends (aligning_run_of aligns_pointers) (InfExit 165) 15 [] }
    ensures asks_alignments { Ends (aligning_run_of asks_alignments) (InfExit 147) 59 [] }
    ensures largest_aligned { Ends (aligning_run_of largest_aligned) (InfExit 0) 14 [] }
    ensures allocates_aligned { Ends (aligning_run_of allocates_aligned) (InfExit 0) 7 [] }
    ensures skips_before_alignment { Ends (aligning_run_of skips_before_alignment) (InfExit 48) 9 [] }
{}

/// Where guests blur, each by another value that it can't do without: docs/infinite-run.md, "Worked runs".
pub fn guests_blur()
    ensures prints_unset { Ends (run_of prints_unset) (InfBlur Why.Output 0x10028) 7 [] }
    ensures region_address { Ends (run_of region_address) (InfBlur Why.Address 0x10018) 2 [] }
    ensures unknown_address { Ends (run_of unknown_address) (InfBlur Why.Address 0x1001c) 4 [] }
    ensures pointer_call { Ends (run_of pointer_call) (InfBlur Why.Operand 0x1001c) 4 [] }
    ensures pointer_exit { Ends (run_of pointer_exit) (InfBlur Why.Operand 0x1001c) 4 [] }
    ensures pointer_length { Ends (run_of pointer_length) (InfBlur Why.Operand 0x1002c) 8 [] }
    ensures region_span { Ends (run_of region_span) (InfBlur Why.Operand 0x10050) 16 [] }
    ensures runs_pointer { Ends (running_run_of runs_pointer) (InfBlur Why.Fetch 0x200000) 6 [] }
    ensures runs_data { Ends (run_of runs_pointer) (InfFault FaultKind.Fetch 0x200000) 6 [] }
    ensures jumps_to_pointer { Ends (run_of jumps_to_pointer) (InfBlur Why.Target 0x10018) 3 [] }
    ensures masks_too_much { Ends (aligning_run_of masks_too_much) (InfBlur Why.Branch 0x10020) 5 [] }
    ensures pointer_alignment { Ends (aligning_run_of pointer_alignment) (InfBlur Why.Size 0x10000) 6 [] }
    ensures aligned_pointer_size { Ends (aligning_run_of aligned_pointer_size) (InfBlur Why.Size 0x10000) 7 [] }
    ensures reallocates_aligned { Ends (aligning_run_of reallocates_aligned) (InfBlur Why.Branch 0x10028) 8 [] }
{}

/// What these guests record, and which objects there are in the end.
pub fn guests_leave()
    ensures empty_objects { Leaves (run_of empty_objects) (used Touch 0 0 1 2 0x10024 ∷ used Touch 1 0 1 2 0x10024 ∷ []) (kept 0 0x22324c3d Unset ∷ kept 0 0x230b7249 Unset ∷ []) }
    ensures largest_size { Leaves (run_of largest_size) [] (kept 0x100000 0x22324c3d Unset ∷ []) }
    ensures past_the_end { Leaves (run_of past_the_end) (used Store 0 16 1 1 0x10018 ∷ []) (gone 16 0x22324c3d Unset 1 0x230b7249 ∷ []) }
    ensures before_the_start { Leaves (run_of before_the_start) (used Store 0 0xfffffff0 1 1 0x10018 ∷ []) (gone 16 0x22324c3d Unset 1 0x230b7249 ∷ []) }
    ensures frees_twice { Leaves (run_of frees_twice) (used Again 0 0 0 1 0x10004 ∷ []) (gone 16 0x22324c3d Unset 1 0x230b7249 ∷ []) }
    ensures frees_later { Leaves (run_of frees_later) (used Again 0 0 0 2 0x10004 ∷ []) (gone 16 0x22324c3d Unset 1 0x230b7249 ∷ kept 16 0x239c3651 Unset ∷ []) }
    ensures reads_freed { Leaves (run_of reads_freed) (used Store 0 0 1 1 0x10020 ∷ used Load 0 0 1 2 0x10034 ∷ []) (gone 16 0x22324c3d Unset 1 0x239c3651 ∷ kept 16 0x242cfa59 Unset ∷ []) }
    ensures reads_later { Leaves (run_of reads_later) (used Store 0 0 1 1 0x10020 ∷ used Load 0 0 1 3 0x1003c ∷ []) (gone 16 0x22324c3d Unset 1 0x239c3651 ∷ kept 16 0x242cfa59 Unset ∷ kept 16 0x24bdbe61 Unset ∷ []) }
    ensures prints_pointer { Leaves (run_of prints_pointer) [] (kept 16 0x22324c3d Unset ∷ []) }
    ensures grows_zeros { Leaves (run_of grows_zeros) (used Store 0 15 1 1 0x10020 ∷ used Load 1 15 1 2 0x1002c ∷ used Load 1 0 1 2 0x10030 ∷ []) (gone 16 0x227aae41 (Byte 0) 2 0x239c3651 ∷ kept 40 0x239c3651 Unset ∷ []) }
    ensures reallocates { Leaves (run_of reallocates) [] (gone 8 0x22324c3d Unset 3 0x24bdbe61 ∷ kept 8 0x23e49855 Unset ∷ kept 4 0x24bdbe61 Unset ∷ []) }
    ensures frees_others { Leaves (run_of frees_others) (used Touch 0 3 1 1 0x10004 ∷ []) (kept 8 0x2353d44d Unset ∷ []) }
    ensures skips_argument { Leaves (skipping_run_of skips_argument) [] (gone 16 0x22324c3d Unset 1 0x230b7249 ∷ []) }
    ensures odd_return { Leaves (run_of odd_return) [] (kept 16 0x07ff0025 Unset ∷ []) }
    ensures misaligned_return { Leaves (run_of misaligned_return) [] (kept 16 0x22324c3d Unset ∷ []) }
    ensures zeroed { Leaves (zeroed_run_of pointer_size) [] (kept 16 0x22324c3d (Byte 0) ∷ []) }
    ensures aligns_pointers { Leaves (aligning_run_of aligns_pointers) (used Store 0 0 1 1 0x10028 ∷ used Load 0 0 1 1 0x10038 ∷ []) (aligned_to 64 (kept 100 0x227aae41 Unset) ∷ []) }
    ensures asks_alignments { Leaves (aligning_run_of asks_alignments) [] (kept 8 0x242cfa59 Unset ∷ kept 8 0x25df4671 Unset ∷ aligned_to 32 (kept 8 0x2943dea1 Unset) ∷ aligned_to 4096 (kept 8 0x2af62ab9 Unset) ∷ []) }
    ensures largest_aligned { Leaves (aligning_run_of largest_aligned) [] (aligned_to 4096 (kept 0x100000 0x227aae41 Unset) ∷ []) }
    ensures allocates_aligned { Leaves (aligning_run_of allocates_aligned) [] (aligned_to 32 (kept 4096 0x227aae41 Unset) ∷ []) }
    ensures skips_before_alignment { Leaves (aligning_run_of skips_before_alignment) [] (aligned_to 64 (kept 100 0x22c31045 Unset) ∷ []) }
    ensures reallocates_aligned { Leaves (aligning_run_of reallocates_aligned) [] (aligned_to 64 (gone 8 0x227aae41 Unset 2 0x230b7249) ∷ kept 100 0x230b7249 Unset ∷ []) }
    ensures zeroed_aligned { Leaves (zeroed_aligning_run_of allocates_aligned) [] (aligned_to 32 (kept 4096 0x227aae41 (Byte 0)) ∷ []) }
{}

/// What guests record of their accesses, and in which order.
pub fn guests_record()
    ensures fills_to_end { Uses (run_of fills_to_end) (used Store 0 0 1 1 0x10020 ∷ used Store 0 1 1 1 0x10020 ∷ used Store 0 2 1 1 0x10020 ∷ used Load 0 2 1 1 0x1002c ∷ []) }
    ensures compares_numbers { Uses (run_of compares_numbers) [] }
    ensures tags_pointer { Uses (run_of tags_pointer) (used Store 0 8 1 1 0x10028 ∷ used Load 0 8 1 1 0x10034 ∷ []) }
    ensures joins_halves { Uses (run_of joins_halves) (used Store 0 2 2 1 0x10034 ∷ used Load 0 2 2 1 0x10038 ∷ []) }
    ensures echoes { Uses (run_on hi echoes) (used Store 0 2 16 1 0x1002c ∷ used Load 0 2 3 1 0x1003c ∷ used Load 0 2 1 1 0x10048 ∷ []) }
    ensures prints_unset { Uses (run_of prints_unset) (used Load 0 0 1 1 0x10028 ∷ []) }
    ensures misaligned_load { Uses (run_of misaligned_load) [] }
    ensures misaligned_store { Uses (run_of misaligned_store) [] }
    ensures misaligned_branch { Uses (run_of misaligned_branch) (used Touch 0 0 1 2 0x10024 ∷ used Touch 1 0 1 2 0x10024 ∷ []) }
    ensures pointer_length { Uses (run_of pointer_length) [] }
    ensures frees_numbers { Uses (run_of frees_numbers) [] }
{}

/// How many cells of objects guests have stored: by stores, by reads, and where realloc copies a stored cell.
pub fn guests_store()
    ensures past_the_end { stored_by (run_of past_the_end) ≡ 1 }
    ensures copies_pointer { stored_by (run_of copies_pointer) ≡ 9 }
    ensures seeks_zero { stored_by (run_of seeks_zero) ≡ 6 }
    ensures grows_zeros { stored_by (run_of grows_zeros) ≡ 2 }
    ensures reallocates { stored_by (run_of reallocates) ≡ 0 }
    ensures tags_pointer { stored_by (run_of tags_pointer) ≡ 1 }
    ensures echoes { stored_by (run_on hi echoes) ≡ 3 }
{}

/// Which steps read, also at the end of the input.
pub fn guests_read()
    ensures echoes { asks_after hi echoes 8 ≡ Some 16 }
    ensures echoes_at_end { asks_after [] echoes 8 ≡ Some 16 }
    ensures echoes_before { asks_after hi echoes 7 ≡ None }
    ensures echoes_writes { asks_after hi echoes 12 ≡ None }
{}

/// Which patches cover these guests.
pub fn guests_are_covered()
    ensures past_the_end { ¬ (CoversGuest no_cures past_the_end 18) }
    ensures past_the_end_padded { CoversGuest (one_pad 0x22324c3d 1) past_the_end 18 }
    ensures before_the_start { ¬ (CoversGuest no_cures before_the_start 18) }
    ensures before_the_start_in_front { CoversGuest (one_front 0x22324c3d 16) before_the_start 18 }
    ensures frees_twice { CoversGuest no_cures frees_twice 13 }
    ensures frees_later { ¬ (CoversGuest no_cures frees_later 16) }
    ensures frees_later_deferred { CoversGuest (one_deferral 0x22324c3d 0x230b7249 1) frees_later 16 }
    ensures reads_freed_deferred { CoversGuest (one_deferral 0x22324c3d 0x239c3651 2) reads_freed 23 }
    ensures reads_later_deferred { ¬ (CoversGuest (one_deferral 0x22324c3d 0x239c3651 2) reads_later 26) }
{}
