//! Tests that the functions which state a law return.
use api::{
    body_asks_once, message_step_is_deterministic, parse_is_unique, storage_reports_failure,
    uris_need_no_escape,
};
use model::laws::{
    law_of_answers, law_of_blocks, law_of_copies, law_of_firings, law_of_lists, law_of_queues,
    law_of_refusals, law_of_routing, law_of_service, laws_of_minutes,
};
use numbers::subjects_in_order_of_texts;
use register::law_of_new_stores;
use telnp::{answers_are_in_order, faults_are_in_order, tel_uris_are_read};
use windows::fault_is_the_least;

#[test]
fn laws_return(_rt: HostRuntime) {
    laws_of_minutes();
    law_of_firings();
    law_of_service();
    law_of_routing();
    law_of_answers();
    law_of_refusals();
    law_of_copies();
    law_of_queues();
    law_of_lists();
    law_of_blocks();
    subjects_in_order_of_texts();
    tel_uris_are_read();
    faults_are_in_order();
    answers_are_in_order();
    fault_is_the_least();
    law_of_new_stores();
    parse_is_unique();
    body_asks_once();
    message_step_is_deterministic();
    storage_reports_failure();
    uris_need_no_escape();
}
