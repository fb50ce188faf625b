// Worked runs: each is replayed, and the relation lets it end as told.
ghost use Rattle.relay_model.specs.Settings.{usual};
ghost use Rattle.relay_rows.specs.Laws.{Goes, IsStoppedBy, FailsToPoll};
ghost use Rattle.relay_rows.specs.PlainRows.{bytes_then_end, nothing_may_be_written, byte_by_byte, write_that_fails, request_and_answer};
ghost use Rattle.relay_rows.specs.PlainRows.{connect_that_fails, drained_at_the_end, time_stands_still, poll_that_fails};
ghost use Rattle.relay_rows.specs.FilterRows.{held_and_drained, line_end_in_two_reads, held_to_the_end, line_ends_added, line_end_kept};
ghost use Rattle.relay_rows.specs.FilterRows.{odd_digit, no_digit, held_back, read_mark_reached, crlf_out, five_at_once, held_at_four};
ghost use Rattle.relay_rows.specs.FilterRows.{hex_in, lf_in};
ghost use Rattle.relay_rows.specs.HookRows.{reading_is_activity, held_byte_dropped, frees_another_link, frees_the_peer_twice, read_timeout};
ghost use Rattle.relay_rows.specs.HookRows.{timer_fires, hook_stops, hook_and_lf_in, hook_in, three_hooks, timeout_in};
ghost use Rattle.relay_rows.specs.EdgeRows.{read_filter_stops_at_the_mark, hex_in_marked_at_six, bad_byte_while_held, hex_out_held_at_four};
ghost use Rattle.relay_rows.specs.EdgeRows.{writing_is_activity, rest_given_after_a_free, both_end_at_once, ended_before_it_connects};
ghost use Rattle.relay_rows.specs.EdgeRows.{nothing_was_ready, bad_byte_behind_the_mark, connects_too_late, failed_and_expired};
ghost use Rattle.relay_rows.specs.EdgeRows.{hex_out_held_at_one, read_timeout_out, write_timeout_out};
ghost use Rattle.relay_rows.specs.ReasonRows.{suspended_without_members, hook_of_a_member, reasons_in_order, first_due_first_fired};
ghost use Rattle.relay_rows.specs.ReasonRows.{asks_behind_a_stop, forgotten_with_the_side, timer_replaced_and_cancelled, timeout_asked_for};
ghost use Rattle.relay_rows.specs.ReasonRows.{group_joined_and_left, limit_changed, hook_and_group, hook_and_limit, hook_out, two_links};
ghost use Rattle.relay_rows.specs.AskRows.{no_end_behind_a_free, hook_in_and_hex_out, end_and_fault_told, connected_and_written};
ghost use Rattle.relay_rows.specs.AskRows.{two_timeouts_joined, low_mark_reached, writing_disabled_for_a_turn, asks_refused, triggered};
ghost use Rattle.relay_rows.specs.AskRows.{limit_asked_for, hook_and_low_mark_in, hook_and_timeouts_out, two_hooks};
ghost use Rattle.relay_rows.specs.MarkRows.{marks_asked_for, write_low_mark_reached, timers_in_order, enabled_behind_the_end};
ghost use Rattle.relay_rows.specs.MarkRows.{reading_disabled, hook_and_low_mark_out, hook_at_in, hooks_of_two_links};
ghost use Rattle.relay_rows.specs.RateRows.{share_lowered_to_the_rate, group_of_ten, written_in_ticks, limited_out};
ghost use Rattle.relay_rows.specs.RateRows.{suspended_for_two_ticks, small_group, read_in_ticks, shared_by_three, limited_in, one_group};

/// Runs without filters, marks, limits and hooks.
///
/// Own.
pub fn plain_runs_are_legal()
    ensures bytes_then_end { Goes usual bytes_then_end }
    ensures nothing_may_be_written { Goes usual nothing_may_be_written }
    ensures byte_by_byte { Goes usual byte_by_byte }
    ensures write_that_fails { Goes usual write_that_fails }
    ensures request_and_answer { Goes usual request_and_answer }
    ensures connect_that_fails { Goes usual connect_that_fails }
    ensures drained_at_the_end { Goes usual drained_at_the_end }
    ensures time_stands_still { Goes usual time_stands_still }
    ensures poll_that_fails { FailsToPoll usual poll_that_fails }
{}

/// Runs with filters, hold marks and read marks.
///
/// Own.
pub fn runs_with_filters_are_legal()
    ensures line_end_in_two_reads { Goes lf_in line_end_in_two_reads }
    ensures held_to_the_end { Goes lf_in held_to_the_end }
    ensures line_ends_added { Goes crlf_out line_ends_added }
    ensures line_end_kept { Goes crlf_out line_end_kept }
    ensures odd_digit { Goes hex_in odd_digit }
    ensures no_digit { Goes hex_in no_digit }
    ensures held_back { Goes held_at_four held_back }
    ensures held_and_drained { Goes held_at_four held_and_drained }
    ensures read_mark_reached { Goes five_at_once read_mark_reached }
{}

/// Runs with hooks and timeouts.
///
/// Own.
pub fn runs_with_hooks_are_legal()
    ensures held_byte_dropped { Goes hook_and_lf_in held_byte_dropped }
    ensures frees_another_link { Goes three_hooks frees_another_link }
    ensures frees_the_peer_twice { Goes hook_in frees_the_peer_twice }
    ensures read_timeout { Goes timeout_in read_timeout }
    ensures reading_is_activity { Goes timeout_in reading_is_activity }
    ensures timer_fires { Goes hook_in timer_fires }
    ensures hook_stops { IsStoppedBy 0 hook_in hook_stops }
{}

/// Runs with a limit and with a group.
///
/// Own.
pub fn runs_with_limits_are_legal()
    ensures read_in_ticks { Goes limited_in read_in_ticks }
    ensures written_in_ticks { Goes limited_out written_in_ticks }
    ensures shared_by_three { Goes one_group shared_by_three }
    ensures suspended_for_two_ticks { Goes small_group suspended_for_two_ticks }
    ensures share_lowered_to_the_rate { Goes group_of_ten share_lowered_to_the_rate }
{}

/// Runs at the edges of the rules, without hooks.
///
/// Own.
pub fn runs_at_edges_are_legal()
    ensures rest_given_after_a_free { Goes usual rest_given_after_a_free }
    ensures both_end_at_once { Goes usual both_end_at_once }
    ensures ended_before_it_connects { Goes usual ended_before_it_connects }
    ensures nothing_was_ready { Goes usual nothing_was_ready }
    ensures bad_byte_behind_the_mark { Goes hex_out_held_at_one bad_byte_behind_the_mark }
    ensures bad_byte_while_held { Goes hex_out_held_at_four bad_byte_while_held }
    ensures read_filter_stops_at_the_mark { Goes hex_in_marked_at_six read_filter_stops_at_the_mark }
    ensures connects_too_late { Goes write_timeout_out connects_too_late }
    ensures writing_is_activity { Goes write_timeout_out writing_is_activity }
    ensures failed_and_expired { Goes read_timeout_out failed_and_expired }
{}

/// Runs in which hooks hear each kind of reason and ask.
///
/// Own.
pub fn runs_of_asks_are_legal()
    ensures end_and_fault_told { Goes two_hooks end_and_fault_told }
    ensures connected_and_written { Goes two_hooks connected_and_written }
    ensures two_timeouts_joined { Goes hook_and_timeouts_out two_timeouts_joined }
    ensures low_mark_reached { Goes hook_and_low_mark_in low_mark_reached }
    ensures writing_disabled_for_a_turn { Goes two_hooks writing_disabled_for_a_turn }
    ensures asks_refused { Goes hook_in asks_refused }
    ensures triggered { Goes hook_in triggered }
    ensures limit_asked_for { Goes hook_in limit_asked_for }
    ensures no_end_behind_a_free { Goes hook_in_and_hex_out no_end_behind_a_free }
{}

/// Runs of reasons in order, and of timers, timeouts, limits and groups that hooks set.
///
/// Own.
pub fn runs_of_reasons_are_legal()
    ensures reasons_in_order { Goes hook_out reasons_in_order }
    ensures first_due_first_fired { Goes two_links first_due_first_fired }
    ensures asks_behind_a_stop { IsStoppedBy 1 two_links asks_behind_a_stop }
    ensures forgotten_with_the_side { Goes hook_in forgotten_with_the_side }
    ensures timer_replaced_and_cancelled { Goes hook_in timer_replaced_and_cancelled }
    ensures timeout_asked_for { Goes hook_in timeout_asked_for }
    ensures group_joined_and_left { Goes hook_and_group group_joined_and_left }
    ensures suspended_without_members { Goes hook_of_a_member suspended_without_members }
    ensures limit_changed { Goes hook_and_limit limit_changed }
{}

/// Runs of marks, of timers that pass together, and of what hooks enable and disable.
///
/// Own.
pub fn runs_of_marks_are_legal()
    ensures marks_asked_for { Goes hook_at_in marks_asked_for }
    ensures write_low_mark_reached { Goes hook_and_low_mark_out write_low_mark_reached }
    ensures timers_in_order { Goes hooks_of_two_links timers_in_order }
    ensures enabled_behind_the_end { Goes hook_at_in enabled_behind_the_end }
    ensures reading_disabled { Goes hook_at_in reading_disabled }
{}
