// Small changes of worked runs: what stands before the changed event is legal, and with it no more.
ghost use Rattle.relay_rows.specs.Wrong.{IsWrong};
ghost use Rattle.relay_rows.specs.WrongRows.{time_falls, turn_after_a_failed_poll, turn_within_a_turn, link_out_of_order, want_left_out};
ghost use Rattle.relay_rows.specs.WrongRows.{mark_not_wanted, read_with_a_wrong_room, read_without_a_mark, write_offers_too_little};
ghost use Rattle.relay_rows.specs.WrongRows.{wait_too_long, writing_ended_early, peer_gone_without_cause, done_too_early};
ghost use Rattle.relay_rows.specs.WrongRows.{output_of_a_freed_side_dropped, freed_twice, live_end_closed, wrong_cause};
ghost use Rattle.relay_rows.specs.WrongRows.{fired_on_a_freed_side, write_reason_above_the_low_mark, fired_without_a_reason};
ghost use Rattle.relay_rows.specs.WrongRows.{fire_after_a_stop, asked_by_another, refused_without_cause, one_ask_too_many};
ghost use Rattle.relay_rows.specs.WrongEdges.{link_past_the_64th, link_past_the_last, time_past_the_last, nothing_got, more_than_the_room};
ghost use Rattle.relay_rows.specs.WrongEdges.{ended_side_wanted, written_as_it_connects, writing_ended_while_connecting};
ghost use Rattle.relay_rows.specs.WrongEdges.{held_byte_forgotten, held_byte_given, bad_byte_met_without_room, filled_above_half};
ghost use Rattle.relay_rows.specs.WrongEdges.{wanted_at_the_read_mark, wanted_with_an_empty_bucket, read_while_suspended};
ghost use Rattle.relay_rows.specs.WrongEdges.{fired_below_the_low_mark, timeouts_told_apart, fired_in_the_turn_of_its_ask};

/// Turns that come at a wrong time, and a link that is opened out of order.
///
/// Own.
pub fn wrong_turns_are_refused()
    ensures time_falls { IsWrong time_falls }
    ensures turn_after_a_failed_poll { IsWrong turn_after_a_failed_poll }
    ensures turn_within_a_turn { IsWrong turn_within_a_turn }
    ensures link_out_of_order { IsWrong link_out_of_order }
{}

/// Wants, marks, rooms and waits that the rules don't call for.
///
/// Own.
pub fn wrong_rooms_are_refused()
    ensures want_left_out { IsWrong want_left_out }
    ensures mark_not_wanted { IsWrong mark_not_wanted }
    ensures read_with_a_wrong_room { IsWrong read_with_a_wrong_room }
    ensures read_without_a_mark { IsWrong read_without_a_mark }
    ensures write_offers_too_little { IsWrong write_offers_too_little }
    ensures wait_too_long { IsWrong wait_too_long }
{}

/// Sides that are freed, ends that are closed and writing that is ended without cause.
///
/// Own.
pub fn wrong_closing_is_refused()
    ensures writing_ended_early { IsWrong writing_ended_early }
    ensures peer_gone_without_cause { IsWrong peer_gone_without_cause }
    ensures done_too_early { IsWrong done_too_early }
    ensures output_of_a_freed_side_dropped { IsWrong output_of_a_freed_side_dropped }
    ensures freed_twice { IsWrong freed_twice }
    ensures live_end_closed { IsWrong live_end_closed }
    ensures wrong_cause { IsWrong wrong_cause }
{}

/// Hooks that are called without a reason, and asks that are answered wrongly.
///
/// Own.
pub fn wrong_hook_steps_are_refused()
    ensures fired_on_a_freed_side { IsWrong fired_on_a_freed_side }
    ensures write_reason_above_the_low_mark { IsWrong write_reason_above_the_low_mark }
    ensures fired_without_a_reason { IsWrong fired_without_a_reason }
    ensures fire_after_a_stop { IsWrong fire_after_a_stop }
    ensures asked_by_another { IsWrong asked_by_another }
    ensures refused_without_cause { IsWrong refused_without_cause }
    ensures one_ask_too_many { IsWrong one_ask_too_many }
{}

/// Events at the edges of filters, marks, limits and timeouts.
///
/// Own.
pub fn wrong_edges_are_refused()
    ensures ended_side_wanted { IsWrong ended_side_wanted }
    ensures written_as_it_connects { IsWrong written_as_it_connects }
    ensures writing_ended_while_connecting { IsWrong writing_ended_while_connecting }
    ensures held_byte_forgotten { IsWrong held_byte_forgotten }
    ensures held_byte_given { IsWrong held_byte_given }
    ensures bad_byte_met_without_room { IsWrong bad_byte_met_without_room }
    ensures filled_above_half { IsWrong filled_above_half }
    ensures wanted_at_the_read_mark { IsWrong wanted_at_the_read_mark }
    ensures wanted_with_an_empty_bucket { IsWrong wanted_with_an_empty_bucket }
    ensures read_while_suspended { IsWrong read_while_suspended }
    ensures fired_below_the_low_mark { IsWrong fired_below_the_low_mark }
    ensures timeouts_told_apart { IsWrong timeouts_told_apart }
    ensures fired_in_the_turn_of_its_ask { IsWrong fired_in_the_turn_of_its_ask }
    ensures link_past_the_64th { IsWrong link_past_the_64th }
    ensures link_past_the_last { IsWrong link_past_the_last }
    ensures time_past_the_last { IsWrong time_past_the_last }
    ensures nothing_got { IsWrong nothing_got }
    ensures more_than_the_room { IsWrong more_than_the_room }
{}
