//! A function for each subject of the worked examples. Written by `tools/gen/rows.py`.
#![tactic(auto, unfolding(model_words::specs::Classes::pages_of, model_words::specs::Classes::slots_of, crate::specs::Rows::digits))]

ghost use Rattle.model_rows.specs.Rows.{IsReplayed};
ghost use Rattle.model_rows.specs.Abandoned.{abandoned_after_00, abandoned_after_01, abandoned_after_02, abandoned_after_03, abandoned_after_04, abandoned_after_05, abandoned_after_06, abandoned_after_07, abandoned_after_08, abandoned_after_09, abandoned_after_10, abandoned_after_11, abandoned_after_12, abandoned_after_13, abandoned_after_14, abandoned_after_15, abandoned_after_16, abandoned_after_17, abandoned_after_18, abandoned_after_19, abandoned_after_20};
ghost use Rattle.model_rows.specs.Cancels.{cancel_after_three_protects, cancel_at_once, cancelled_mesh, zeros_after_cancel};
ghost use Rattle.model_rows.specs.Faults.{addr_of_two_cells, address_before_byte, address_past_the_last, alias_of_one_cell, another_version, begin_of_one_group, byte_1f, byte_7f, byte_after_end, byte_in_a_cut_line, byte_of_three_digits, cancel_of_no_class, cancel_without_class, carriage_return, cell_256, copy_from_cell_256, copy_is_no_command, copy_of_33_bytes, copy_of_four_fields, copy_of_no_byte, copy_to_offset_65536, cut_hex, cut_line, cut_line_of_1024_bytes, cut_number, empty_line, first_line_cut, five_fields_with_a_wrong_number, five_fields_with_wrong_hex, free_of_no_cell, get_of_33_bytes, get_of_cell_256, get_of_no_byte, half_byte, history_before_pages, history_of_65537, leading_zero, leading_zero_of_address, leading_zero_of_group, letter_in_a_byte, line_after_end, line_of_1025_bytes, long_hex, long_line_after_end, long_line_of_tabs, long_number, missing_end, new_of_65536_bytes, no_byte, no_page, number_before_hex, one_worker_too_many, pair_of_33_words, pair_of_65_bits, pair_of_65_rounds, pair_of_no_class, plan_before_the_last_worker, plan_of_a_field, plus_sign, put_of_33_bytes, put_without_bytes, run_of_no_worker, slash_in_hex, space_at_the_end, step_of_a_class, step_of_two_classes, step_without_class, sweep_of_group_65536, tab_after_end, tab_in_hex, tab_in_the_plan, text_after_end, tilde_is_no_word, too_many_pages, too_many_workers, two_spaces, two_zeros, upper_address, upper_hex, whole_of_group_65536, word_of_1024_bytes, word_of_65_bits, worker_after_the_last, worker_out_of_order};
ghost use Rattle.model_rows.specs.Interleavings.{begun, cancelled, copied, one_page_protected, one_page_released, one_page_remapped, one_page_unwound, one_page_writable, over, protected, remapped, writable};
ghost use Rattle.model_rows.specs.Mutators.{first_bytes, history_full, largest_numbers, last_bytes, lengths_and_words, load_across_pages, many_workers_and_no_history, one_page, refusals_take_room_in_history, refused_commands_change_nothing, script_over, stale_cells, store_across_pages, words_pick_free_slots};
ghost use Rattle.model_rows.specs.Searches.{fewer_objects_is_source, groups_that_are_no_candidates, pair_overtaken, rounds_on_shorter_lists, search_in_order, split_search, words_of_a_search};
ghost use Rattle.model_rows.specs.SmallSteps.{addresses_after_meshing, begin_refusals, blocked_takes_no_room_in_history, busy_before_overlap, free_while_meshing, members_in_their_order, objects_across_pages, one_mesh_at_a_time, poke_while_meshing, reads_while_meshing, refusals_in_their_order, reuse_after_meshing, slots_freed_while_meshing, source_of_two_members, store_across_pages_while_meshing, stores_while_meshing, worked_mesh};
ghost use Rattle.model_rows.specs.Version2.{cancels_of_classes, copies, copies_across_pages_while_meshing, copies_and_the_history, copies_while_meshing, copies_within_an_object, copy_refusals_in_their_order, one_mesh_a_class, version_1_beside_another_class, whole_beside_another_class};
ghost use Rattle.model_rows.specs.WholeMeshes.{bytes_of_three_pages, classes_of_three_pages, eight_members, four_on_one_page, overlap_before_members, refusals_of_whole, report, room_by_meshing, sweep};

/// Worked examples: abandoned.
pub fn abandoned()
    ensures abandoned_after_00 { IsReplayed abandoned_after_00 }
    ensures abandoned_after_01 { IsReplayed abandoned_after_01 }
    ensures abandoned_after_02 { IsReplayed abandoned_after_02 }
    ensures abandoned_after_03 { IsReplayed abandoned_after_03 }
    ensures abandoned_after_04 { IsReplayed abandoned_after_04 }
    ensures abandoned_after_05 { IsReplayed abandoned_after_05 }
    ensures abandoned_after_06 { IsReplayed abandoned_after_06 }
    ensures abandoned_after_07 { IsReplayed abandoned_after_07 }
    ensures abandoned_after_08 { IsReplayed abandoned_after_08 }
    ensures abandoned_after_09 { IsReplayed abandoned_after_09 }
    ensures abandoned_after_10 { IsReplayed abandoned_after_10 }
    ensures abandoned_after_11 { IsReplayed abandoned_after_11 }
    ensures abandoned_after_12 { IsReplayed abandoned_after_12 }
    ensures abandoned_after_13 { IsReplayed abandoned_after_13 }
    ensures abandoned_after_14 { IsReplayed abandoned_after_14 }
    ensures abandoned_after_15 { IsReplayed abandoned_after_15 }
    ensures abandoned_after_16 { IsReplayed abandoned_after_16 }
    ensures abandoned_after_17 { IsReplayed abandoned_after_17 }
    ensures abandoned_after_18 { IsReplayed abandoned_after_18 }
    ensures abandoned_after_19 { IsReplayed abandoned_after_19 }
    ensures abandoned_after_20 { IsReplayed abandoned_after_20 }
{}

/// Worked examples: cancels.
pub fn cancels()
    ensures cancel_after_three_protects { IsReplayed cancel_after_three_protects }
    ensures cancel_at_once { IsReplayed cancel_at_once }
    ensures cancelled_mesh { IsReplayed cancelled_mesh }
    ensures zeros_after_cancel { IsReplayed zeros_after_cancel }
{}

/// Worked examples: faults.
pub fn faults()
    ensures addr_of_two_cells { IsReplayed addr_of_two_cells }
    ensures address_before_byte { IsReplayed address_before_byte }
    ensures address_past_the_last { IsReplayed address_past_the_last }
    ensures alias_of_one_cell { IsReplayed alias_of_one_cell }
    ensures another_version { IsReplayed another_version }
    ensures begin_of_one_group { IsReplayed begin_of_one_group }
    ensures byte_1f { IsReplayed byte_1f }
    ensures byte_7f { IsReplayed byte_7f }
    ensures byte_after_end { IsReplayed byte_after_end }
    ensures byte_in_a_cut_line { IsReplayed byte_in_a_cut_line }
    ensures byte_of_three_digits { IsReplayed byte_of_three_digits }
    ensures cancel_of_no_class { IsReplayed cancel_of_no_class }
    ensures cancel_without_class { IsReplayed cancel_without_class }
    ensures carriage_return { IsReplayed carriage_return }
    ensures cell_256 { IsReplayed cell_256 }
    ensures copy_from_cell_256 { IsReplayed copy_from_cell_256 }
    ensures copy_is_no_command { IsReplayed copy_is_no_command }
    ensures copy_of_33_bytes { IsReplayed copy_of_33_bytes }
    ensures copy_of_four_fields { IsReplayed copy_of_four_fields }
    ensures copy_of_no_byte { IsReplayed copy_of_no_byte }
    ensures copy_to_offset_65536 { IsReplayed copy_to_offset_65536 }
    ensures cut_hex { IsReplayed cut_hex }
    ensures cut_line { IsReplayed cut_line }
    ensures cut_line_of_1024_bytes { IsReplayed cut_line_of_1024_bytes }
    ensures cut_number { IsReplayed cut_number }
    ensures empty_line { IsReplayed empty_line }
    ensures first_line_cut { IsReplayed first_line_cut }
    ensures five_fields_with_a_wrong_number { IsReplayed five_fields_with_a_wrong_number }
    ensures five_fields_with_wrong_hex { IsReplayed five_fields_with_wrong_hex }
    ensures free_of_no_cell { IsReplayed free_of_no_cell }
    ensures get_of_33_bytes { IsReplayed get_of_33_bytes }
    ensures get_of_cell_256 { IsReplayed get_of_cell_256 }
    ensures get_of_no_byte { IsReplayed get_of_no_byte }
    ensures half_byte { IsReplayed half_byte }
    ensures history_before_pages { IsReplayed history_before_pages }
    ensures history_of_65537 { IsReplayed history_of_65537 }
    ensures leading_zero { IsReplayed leading_zero }
    ensures leading_zero_of_address { IsReplayed leading_zero_of_address }
    ensures leading_zero_of_group { IsReplayed leading_zero_of_group }
    ensures letter_in_a_byte { IsReplayed letter_in_a_byte }
    ensures line_after_end { IsReplayed line_after_end }
    ensures line_of_1025_bytes { IsReplayed line_of_1025_bytes }
    ensures long_hex { IsReplayed long_hex }
    ensures long_line_after_end { IsReplayed long_line_after_end }
    ensures long_line_of_tabs { IsReplayed long_line_of_tabs }
    ensures long_number { IsReplayed long_number }
    ensures missing_end { IsReplayed missing_end }
    ensures new_of_65536_bytes { IsReplayed new_of_65536_bytes }
    ensures no_byte { IsReplayed no_byte }
    ensures no_page { IsReplayed no_page }
    ensures number_before_hex { IsReplayed number_before_hex }
    ensures one_worker_too_many { IsReplayed one_worker_too_many }
    ensures pair_of_33_words { IsReplayed pair_of_33_words }
    ensures pair_of_65_bits { IsReplayed pair_of_65_bits }
    ensures pair_of_65_rounds { IsReplayed pair_of_65_rounds }
    ensures pair_of_no_class { IsReplayed pair_of_no_class }
    ensures plan_before_the_last_worker { IsReplayed plan_before_the_last_worker }
    ensures plan_of_a_field { IsReplayed plan_of_a_field }
    ensures plus_sign { IsReplayed plus_sign }
    ensures put_of_33_bytes { IsReplayed put_of_33_bytes }
    ensures put_without_bytes { IsReplayed put_without_bytes }
    ensures run_of_no_worker { IsReplayed run_of_no_worker }
    ensures slash_in_hex { IsReplayed slash_in_hex }
    ensures space_at_the_end { IsReplayed space_at_the_end }
    ensures step_of_a_class { IsReplayed step_of_a_class }
    ensures step_of_two_classes { IsReplayed step_of_two_classes }
    ensures step_without_class { IsReplayed step_without_class }
    ensures sweep_of_group_65536 { IsReplayed sweep_of_group_65536 }
    ensures tab_after_end { IsReplayed tab_after_end }
    ensures tab_in_hex { IsReplayed tab_in_hex }
    ensures tab_in_the_plan { IsReplayed tab_in_the_plan }
    ensures text_after_end { IsReplayed text_after_end }
    ensures tilde_is_no_word { IsReplayed tilde_is_no_word }
    ensures too_many_pages { IsReplayed too_many_pages }
    ensures too_many_workers { IsReplayed too_many_workers }
    ensures two_spaces { IsReplayed two_spaces }
    ensures two_zeros { IsReplayed two_zeros }
    ensures upper_address { IsReplayed upper_address }
    ensures upper_hex { IsReplayed upper_hex }
    ensures whole_of_group_65536 { IsReplayed whole_of_group_65536 }
    ensures word_of_1024_bytes { IsReplayed word_of_1024_bytes }
    ensures word_of_65_bits { IsReplayed word_of_65_bits }
    ensures worker_after_the_last { IsReplayed worker_after_the_last }
    ensures worker_out_of_order { IsReplayed worker_out_of_order }
{}

/// Worked examples: interleavings.
pub fn interleavings()
    ensures begun { IsReplayed begun }
    ensures cancelled { IsReplayed cancelled }
    ensures copied { IsReplayed copied }
    ensures one_page_protected { IsReplayed one_page_protected }
    ensures one_page_released { IsReplayed one_page_released }
    ensures one_page_remapped { IsReplayed one_page_remapped }
    ensures one_page_unwound { IsReplayed one_page_unwound }
    ensures one_page_writable { IsReplayed one_page_writable }
    ensures over { IsReplayed over }
    ensures protected { IsReplayed protected }
    ensures remapped { IsReplayed remapped }
    ensures writable { IsReplayed writable }
{}

/// Worked examples: mutators.
pub fn mutators()
    ensures first_bytes { IsReplayed first_bytes }
    ensures history_full { IsReplayed history_full }
    ensures largest_numbers { IsReplayed largest_numbers }
    ensures last_bytes { IsReplayed last_bytes }
    ensures lengths_and_words { IsReplayed lengths_and_words }
    ensures load_across_pages { IsReplayed load_across_pages }
    ensures many_workers_and_no_history { IsReplayed many_workers_and_no_history }
    ensures one_page { IsReplayed one_page }
    ensures refusals_take_room_in_history { IsReplayed refusals_take_room_in_history }
    ensures refused_commands_change_nothing { IsReplayed refused_commands_change_nothing }
    ensures script_over { IsReplayed script_over }
    ensures stale_cells { IsReplayed stale_cells }
    ensures store_across_pages { IsReplayed store_across_pages }
    ensures words_pick_free_slots { IsReplayed words_pick_free_slots }
{}

/// Worked examples: searches.
pub fn searches()
    ensures fewer_objects_is_source { IsReplayed fewer_objects_is_source }
    ensures groups_that_are_no_candidates { IsReplayed groups_that_are_no_candidates }
    ensures pair_overtaken { IsReplayed pair_overtaken }
    ensures rounds_on_shorter_lists { IsReplayed rounds_on_shorter_lists }
    ensures search_in_order { IsReplayed search_in_order }
    ensures split_search { IsReplayed split_search }
    ensures words_of_a_search { IsReplayed words_of_a_search }
{}

/// Worked examples: small steps.
pub fn small_steps()
    ensures addresses_after_meshing { IsReplayed addresses_after_meshing }
    ensures begin_refusals { IsReplayed begin_refusals }
    ensures blocked_takes_no_room_in_history { IsReplayed blocked_takes_no_room_in_history }
    ensures busy_before_overlap { IsReplayed busy_before_overlap }
    ensures free_while_meshing { IsReplayed free_while_meshing }
    ensures members_in_their_order { IsReplayed members_in_their_order }
    ensures objects_across_pages { IsReplayed objects_across_pages }
    ensures one_mesh_at_a_time { IsReplayed one_mesh_at_a_time }
    ensures poke_while_meshing { IsReplayed poke_while_meshing }
    ensures reads_while_meshing { IsReplayed reads_while_meshing }
    ensures refusals_in_their_order { IsReplayed refusals_in_their_order }
    ensures reuse_after_meshing { IsReplayed reuse_after_meshing }
    ensures slots_freed_while_meshing { IsReplayed slots_freed_while_meshing }
    ensures source_of_two_members { IsReplayed source_of_two_members }
    ensures store_across_pages_while_meshing { IsReplayed store_across_pages_while_meshing }
    ensures stores_while_meshing { IsReplayed stores_while_meshing }
    ensures worked_mesh { IsReplayed worked_mesh }
{}

/// Worked examples: version 2.
pub fn version_2()
    ensures cancels_of_classes { IsReplayed cancels_of_classes }
    ensures copies { IsReplayed copies }
    ensures copies_across_pages_while_meshing { IsReplayed copies_across_pages_while_meshing }
    ensures copies_and_the_history { IsReplayed copies_and_the_history }
    ensures copies_while_meshing { IsReplayed copies_while_meshing }
    ensures copies_within_an_object { IsReplayed copies_within_an_object }
    ensures copy_refusals_in_their_order { IsReplayed copy_refusals_in_their_order }
    ensures one_mesh_a_class { IsReplayed one_mesh_a_class }
    ensures version_1_beside_another_class { IsReplayed version_1_beside_another_class }
    ensures whole_beside_another_class { IsReplayed whole_beside_another_class }
{}

/// Worked examples: whole meshes.
pub fn whole_meshes()
    ensures bytes_of_three_pages { IsReplayed bytes_of_three_pages }
    ensures classes_of_three_pages { IsReplayed classes_of_three_pages }
    ensures eight_members { IsReplayed eight_members }
    ensures four_on_one_page { IsReplayed four_on_one_page }
    ensures overlap_before_members { IsReplayed overlap_before_members }
    ensures refusals_of_whole { IsReplayed refusals_of_whole }
    ensures report { IsReplayed report }
    ensures room_by_meshing { IsReplayed room_by_meshing }
    ensures sweep { IsReplayed sweep }
{}
