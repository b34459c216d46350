//! Steps that are worked by hand: what is declined, and on which link something is put.
ghost use Rattle.std.specs.Prelude.{◌≡◌, [], ◌∷◌};
ghost use Rattle.message_elements.specs.declared.kind.Kind.TheVariants.{K0101, K0400, K0420, K0421};
ghost use Rattle.iso_message.specs.Fields.{as_kind};
ghost use Rattle.network_law.specs.Traces.{Enter, Take, LinkUp, LinkDown, Put, Ask, Post};
ghost use Rattle.law_evidence.specs.Worked.{base, diamond, entered_card, one, ten_dollars, outputs_after, ticks, EnteredIsAnswered, TakenIsAnswered, load_after};
ghost use Rattle.law_evidence.specs.WorkedDeclined.{wrong_card, unissued_card, wrong_unissued_card, forwarded_card, reversal_of_card, repeated_wrong_card_reversal, response_14, response_92, reversal_advice_response_14, reversal_advice_response_92, reversal_declined, reversal_response_14, reversal_response_92, stand_in_response_14, stand_in_response_92, unissued_card_stand_in, wrong_card_request, wrong_card_response_68, wrong_card_reversal, wrong_card_stand_in, wrong_unissued_response_14};
ghost use Rattle.law_evidence.specs.WorkedRequest.{accepts_reversal, approval, both_links_down, changed_request, changed_request_taken, changed_response_94, changed_reversal_advice_response, changed_reversal_request, changed_reversal_response_94, changed_reversal_taken, changed_stand_in_response, changed_stand_in_taken, forwarded_request, home_reversal_advice, host_approves, posts_reversal_advice, repeated_reversal_request, request, request_approved, request_asked, request_at_q, request_from_both, request_pending, request_reversed, response_91, response_94, reversal_advice, reversal_request, reversal_taken, stand_in_advice, stands_in};

/// A wrong card number and a card without an issuer are declined in all messages, of an acquirer and of a link. Such a reversal or
/// advice is neither stored nor posted nor known, so it is declined again. The code for a reversed key comes first, and that for a
/// wrong card number before that for no issuer.
pub fn worked_declined_cards()
    ensures request_again { EnteredIsAnswered base (Enter wrong_card_request ∷ []) wrong_card_request response_14 }
    ensures request_taken { TakenIsAnswered (forwarded_card wrong_card) response_14 }
    ensures request_unissued { TakenIsAnswered (forwarded_card unissued_card) response_92 }
    ensures reversal_entered { EnteredIsAnswered base [] wrong_card_reversal reversal_response_14 }
    ensures reversal_unissued { EnteredIsAnswered base [] (reversal_of_card K0400 unissued_card) reversal_response_92 }
    ensures reversal_again { EnteredIsAnswered base reversal_declined repeated_wrong_card_reversal reversal_response_14 }
    ensures not_stored { load_after base 0 reversal_declined ≡ 0 }
    ensures not_sent_again { outputs_after base 0 (ticks 50 reversal_declined) ≡ [] }
    ensures reversal_taken { TakenIsAnswered (reversal_of_card K0420 wrong_card) reversal_advice_response_14 }
    ensures reversal_taken_unissued { TakenIsAnswered (reversal_of_card K0420 unissued_card) reversal_advice_response_92 }
    ensures advice_taken { TakenIsAnswered wrong_card_stand_in stand_in_response_14 }
    ensures advice_taken_unissued { TakenIsAnswered unissued_card_stand_in stand_in_response_92 }
    ensures card_before_issuer { EnteredIsAnswered base [] (entered_card wrong_unissued_card) wrong_unissued_response_14 }
    ensures reversed_before_card { outputs_after base 1 (Take 0 2 (forwarded_card wrong_card) ∷ reversal_taken 1) ≡ Put 0 2 wrong_card_response_68 ∷ [] }
{}

/// A request of an open key with other content, or from elsewhere, is answered 94, and what was open stays so. A reversal is compared
/// with the open request before it is looked up, and an advice of a known identity isn't compared. Answers from another link, for
/// what isn't open, and of code 94 for what is answered give nothing.
pub fn worked_other_contents()
    ensures taken { outputs_after base 1 changed_request_taken ≡ Put 0 1 changed_response_94 ∷ [] }
    ensures first_answered { outputs_after base 1 (host_approves ∷ changed_request_taken) ≡ Put 0 2 approval ∷ [] }
    ensures still_pending { outputs_after base 0 (Enter request ∷ Enter changed_request ∷ request_pending) ≡ [] }
    ensures other_link { outputs_after diamond 3 request_from_both ≡ Put 3 1 response_94 ∷ [] }
    ensures first_link_answered { outputs_after diamond 3 (host_approves ∷ request_from_both) ≡ Put 2 1 approval ∷ [] }
    ensures reversal_of_open { EnteredIsAnswered base request_reversed changed_reversal_request changed_reversal_response_94 }
    ensures known_reversal { outputs_after base 1 changed_reversal_taken ≡ Put 0 2 changed_reversal_advice_response ∷ [] }
    ensures known_advice { outputs_after base 1 changed_stand_in_taken ≡ Put 0 2 changed_stand_in_response ∷ [] }
    ensures answer_of_other_link { outputs_after diamond 0 (Take 1 1 approval ∷ request_pending) ≡ [] }
    ensures answer_of_none { outputs_after base 0 (Take 0 1 approval ∷ []) ≡ [] }
    ensures later_94 { outputs_after base 0 (Take 0 2 response_94 ∷ request_approved) ≡ [] }
{}

/// A request goes on the first link of the row that is up, and with none up the node decides. A reversal goes where its request went
/// if that link is up; all other advices, and where it is down, on the first link that is up. A response goes where its message came
/// from, up or down. What was a repeat or a reversal at the gate goes on under the type of the first one between nodes.
pub fn worked_ways()
    ensures first_link { outputs_after diamond 0 (Enter request ∷ []) ≡ Put 0 1 forwarded_request ∷ [] }
    ensures second_link { outputs_after diamond 0 (Enter request ∷ LinkDown 0 ∷ []) ≡ Put 1 1 forwarded_request ∷ [] }
    ensures up_again { outputs_after diamond 0 (Enter request ∷ LinkUp 0 ∷ LinkDown 0 ∷ []) ≡ Put 0 1 forwarded_request ∷ [] }
    ensures none_up { EnteredIsAnswered diamond both_links_down request approval }
    ensures sent_when_up { outputs_after diamond 0 (ticks 50 (LinkUp 1 ∷ Enter request ∷ both_links_down)) ≡ Put 1 1 stand_in_advice ∷ [] }
    ensures where_request_went { outputs_after diamond 0 (ticks 3 request_at_q) ≡ stands_in one ten_dollars (Put 1 2) (Put 0 1) }
    ensures where_it_is_down { outputs_after diamond 0 (Enter reversal_request ∷ LinkDown 0 ∷ request_approved) ≡ accepts_reversal (Put 1 1) }
    ensures response_when_down { outputs_after base 1 (host_approves ∷ LinkDown 0 ∷ request_asked) ≡ Put 0 1 approval ∷ [] }
    ensures request_0101 { outputs_after base 0 (Enter (as_kind K0101 request) ∷ []) ≡ Put 0 1 forwarded_request ∷ [] }
    ensures asked_0101 { outputs_after base 1 (Take 0 1 (as_kind K0101 forwarded_request) ∷ []) ≡ Ask 1 forwarded_request ∷ [] }
    ensures reversal_0401 { outputs_after base 0 (Enter repeated_reversal_request ∷ []) ≡ accepts_reversal (Put 0 1) }
    ensures posted_0420 { outputs_after base 1 (Take 0 1 (as_kind K0421 reversal_advice) ∷ []) ≡ posts_reversal_advice }
    ensures host_timed_out { outputs_after base 1 (ticks 100 request_asked) ≡ Post home_reversal_advice ∷ Put 0 1 response_91 ∷ [] }
    ensures host_after_that { outputs_after base 1 (host_approves ∷ ticks 100 request_asked) ≡ [] }
{}
