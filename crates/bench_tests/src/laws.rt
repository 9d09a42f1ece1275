//! That each law can be called: it is the contract of a function that does nothing.

#[test]
fn laws_of_locality() {
    turns::locality::keeps_all();
    turns::locality::changes_one_seat();
    turns::locality::changes_one_edge();
    turns::locality::changes_one_log();
    turns::locality::groups_change_one_seat_and_edge();
    turns::locality::reads_alike();
    turns::locality::entry_reads_alike();
    turns::locality::knows_itself();
    turns::locality::knows_what_it_saw();
    turns::locality::counts_itself();
    turns::locality::leads_on();
    turns::locality::is_legal_in_parts();
    turns::locality::after_every_history();
    turns::locality::have_their_words();
    turns::locality::stays_retired();
    turns::locality::holds_what_it_reaches();
    turns::locality::keeps_reached_log();
    turns::locality::has_one_reaching();
    turns::locality::has_one_entry_each();
    turns::locality::rests_at_no_command();
}

#[test]
fn laws_of_turns() {
    turns::due_is_legal();
    turns::one_group_is_due();
    turns::nothing_due_is_calm();
    turns::calm_has_nothing_due();
    turns::stays_calm();
    turns::one_act_is_due();
    turns::nothing_done_is_idle();
    turns::idle_turn_is_calm();
    session_layer::took_is_turn();
    session_layer::idle_is_idle();
    session_layer::lost_did_nothing();
    session_layer::one_turn();
    session_layer::no_turn();
    session_layer::turns_go_on();
    session_layer::loses_in_between();
}

#[test]
fn laws_of_rounds() {
    rounds::quiet::idle_job_knows_what_it_saw();
    rounds::quiet::both_saw_is_both_know();
    rounds::quiet::quiet_round_is_retired();
    rounds::laws::no_quiet_end();
    rounds::laws::no_quiet_end_from_rest();
    rounds::laws::one_run();
    rounds::laws::drives_from_opening();
    rounds::laws::never_ends_quiet();
    rounds::laws::never_quiet_from_rest();
    rounds::laws::one_run_of_a_plan();
}

#[test]
fn laws_of_runs() {
    workers::turns_in_history();
    headline::holds_of_every_run();
    report::laws::report_of_events();
    report::laws::one_report();
}
