//! Steps that are worked by hand: how many places are taken, and what follows where all are.
ghost use Rattle.std.specs.Prelude.{◌≡◌, true, false, [], ◌∷◌, Some, None};
ghost use Rattle.network_law.specs.declared.fault.StepFault.TheVariants.{NoPlace};
ghost use Rattle.network_law.specs.Traces.{History, load, is_up, Enter, Take, TakePacket};
ghost use Rattle.network_law.specs.Refusals.{refusal};
ghost use Rattle.law_evidence.specs.Worked.{base, limited, lenders, ticks, received, load_after};
ghost use Rattle.law_evidence.specs.WorkedDeclined.{response_14, response_92, unissued_card_request, wrong_card_request, wrong_card_reversal};
ghost use Rattle.law_evidence.specs.WorkedRequest.{approval, changed_request, changed_response_94, forwarded_request, host_approves, request, request_approved, request_asked, request_pending, request_reversed, response_96, reversal_advice, reversal_advice_response, reversal_request, stand_in_advice};
ghost use Rattle.law_evidence.specs.WorkedLimits.{dollar_lent, ten_approved};
ghost use Rattle.law_evidence.specs.WorkedPlaces.{AnswersEntered, AnswersTaken, ApprovedAtLoad, AskedAtLoad, ForwardsEntered, KnownReversalAtLoad, NewAdviceAtLoad, NewAtLoad, NewReversalAtLoad, NewTodayAtLoad, OpenTodayAtLoad, PendingAtLoad, WasApproved};

/// A pending request takes two places, and what is stored takes one until it is acknowledged; at the home of its card an advice takes
/// none.
pub fn worked_places()
    ensures pending { load_after base 0 request_pending ≡ 2 }
    ensures asked { load_after base 1 request_asked ≡ 2 }
    ensures answered { load_after base 0 request_approved ≡ 0 }
    ensures failed { load_after base 0 (ticks 3 request_pending) ≡ 1 }
    ensures failed_and_approved { load_after limited 0 (ticks 3 request_pending) ≡ 2 }
    ensures stood_in { load_after limited 0 ten_approved ≡ 1 }
    ensures reversed { load_after base 0 request_reversed ≡ 1 }
    ensures acknowledged { load_after base 0 (Take 0 1 reversal_advice_response ∷ ticks 3 request_pending) ≡ 0 }
    ensures posted { load_after base 1 (Take 0 1 reversal_advice ∷ []) ≡ 0 }
    ensures lent { load_after lenders 0 dollar_lent ≡ 1 }
    ensures lent_acknowledged { load_after lenders 0 (TakePacket 0 1 received ∷ dollar_lent) ≡ 0 }
{}

/// With two places left a request is forwarded; with fewer it is declined by 96, stood in for or not, though not before what else
/// declines it, and an open key is answered as ever. A taken reversal that finds no place is refused like an entered one.
/// What is declined, known or posted needs no place, nor does an answer of the host. The reversal of a pending request takes one of
/// its two places.
pub fn worked_full_node()
    ensures two_places { (past : History) → NewTodayAtLoad 65534 base past → is_up past 0 ≡ true → ForwardsEntered base past request forwarded_request }
    ensures no_place { (past : History) → NewTodayAtLoad 65536 base past → AnswersEntered base past request response_96 }
    ensures not_stood_in { (past : History) → NewTodayAtLoad 65535 limited past → is_up past 0 ≡ false → AnswersEntered limited past request response_96 }
    ensures not_asked { (past : History) → NewAtLoad 65535 base 1 past → AnswersTaken base past forwarded_request response_96 }
    ensures wrong_card { (past : History) → NewTodayAtLoad 65536 base past → AnswersEntered base past wrong_card_request response_14 }
    ensures no_issuer { (past : History) → NewTodayAtLoad 65536 base past → AnswersEntered base past unissued_card_request response_92 }
    ensures repeated { (past : History) → OpenTodayAtLoad 65536 past → WasApproved past → AnswersEntered base past request approval }
    ensures other_content { (past : History) → OpenTodayAtLoad 65536 past → AnswersEntered base past changed_request changed_response_94 }
    ensures taken_reversal { (past : History) → NewReversalAtLoad 65536 base 0 past reversal_advice → refusal base 0 past (Take 0 1 reversal_advice) ≡ Some NoPlace }
    ensures last_place { (past : History) → NewReversalAtLoad 65535 base 0 past reversal_advice → refusal base 0 past (Take 0 1 reversal_advice) ≡ None }
    ensures of_pending { (past : History) → PendingAtLoad 65536 past → refusal base 0 past (Enter reversal_request) ≡ None }
    ensures of_answered { (past : History) → ApprovedAtLoad 65536 past → refusal base 0 past (Enter reversal_request) ≡ Some NoPlace }
    ensures known_reversal { (past : History) → KnownReversalAtLoad 65536 base 0 past reversal_advice → refusal base 0 past (Take 0 1 reversal_advice) ≡ None }
    ensures declined_reversal { (past : History) → load base 0 past ≡ 65536 → refusal base 0 past (Enter wrong_card_reversal) ≡ None }
    ensures at_home { (past : History) → NewReversalAtLoad 65536 base 1 past reversal_advice → refusal base 1 past (Take 0 1 reversal_advice) ≡ None }
    ensures advice_at_home { (past : History) → NewAdviceAtLoad 65536 base 1 past → refusal base 1 past (Take 0 1 stand_in_advice) ≡ None }
    ensures host { (past : History) → AskedAtLoad 65536 past → refusal base 1 past host_approves ≡ None }
{}
