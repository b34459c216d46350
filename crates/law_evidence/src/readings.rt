//! Steps that are worked by hand: readings that could go two ways.
ghost use Rattle.std.specs.Prelude.{◌≡◌, [], ◌∷◌, Some, None};
ghost use Rattle.message_elements.specs.declared.kind.Kind.TheVariants.{K0400, K0401, K0420};
ghost use Rattle.iso_message.specs.Fields.{as_kind};
ghost use Rattle.network_law.specs.declared.fault.StepFault.TheVariants.{ForeignAcquirer, Missing, TypeNotForGate, Replacement, NotLent};
ghost use Rattle.network_law.specs.Traces.{History, load, Enter, Take, TakePacket, LinkDown, Lend, Put, PutPacket, Answer};
ghost use Rattle.network_law.specs.Refusals.{refusal};
ghost use Rattle.law_evidence.specs.Worked.{base, lenders, ten_dollars, twenty_dollars, card_number, outputs_after, ticks, lend_to_b, received, load_after, march_14, EnteredIsAnswered};
ghost use Rattle.law_evidence.specs.WorkedReadings.{home_stands_in, home_lends, wrong_number, entered_more, forwarded_more, reversal_more, reversal_dated, received_second, accepts_dated_reversal, approved_more, declined_more, lent_twice, more_pending, next_day, next_day_response_94, second_grant, stands_in_at_home};
ghost use Rattle.law_evidence.specs.WorkedRequest.{approval, changed_request, padded_request, request, request_approved, request_asked, request_pending, request_without_currency, reversal_leaving};
ghost use Rattle.law_evidence.specs.WorkedLimits.{dollar_lent, first_grant};

/// Of an entered message element 33 is dropped and all else goes on; an answer and an advice have elements 37 and 41 of it, and no
/// others that don't concern nodes. A repeat is one by its card, code, amount and currency alone, and gets the first answer with its
/// date. An acquirer's reversal keeps its own date. A home whose host is late fails like any node, and may stand in.
pub fn worked_messages()
    ensures goes_on { outputs_after base 0 more_pending ≡ Put 0 1 forwarded_more ∷ [] }
    ensures answered { outputs_after base 0 (Take 0 1 approval ∷ more_pending) ≡ Answer approved_more ∷ [] }
    ensures reversed { outputs_after base 0 (ticks 3 more_pending) ≡ Put 0 2 reversal_more ∷ Answer declined_more ∷ [] }
    ensures repeated { EnteredIsAnswered base request_approved entered_more approval }
    ensures padded { EnteredIsAnswered base request_approved padded_request approval }
    ensures repeated_next_day { EnteredIsAnswered base (next_day ∷ request_approved) request approval }
    ensures other_next_day { EnteredIsAnswered base (next_day ∷ request_pending) changed_request next_day_response_94 }
    ensures answered_next_day { outputs_after base 0 (Take 0 1 approval ∷ next_day ∷ request_pending) ≡ Answer approval ∷ [] }
    ensures own_date { outputs_after base 0 (Enter (reversal_dated K0400) ∷ []) ≡ accepts_dated_reversal (Put 0 1) }
    ensures late_home { outputs_after home_stands_in 1 (ticks 100 request_asked) ≡ stands_in_at_home }
{}

/// Grants are numbered in the order in which they were lent. An acknowledgement counts for its number alone, and is put on the link
/// that the grant came by, up or down. At the home of its card a grant is stored too, and a card's check digit isn't looked at.
pub fn worked_grants()
    ensures second { outputs_after lenders 0 lent_twice ≡ PutPacket 0 2 second_grant ∷ [] }
    ensures put_again { outputs_after lenders 0 (ticks 50 lent_twice) ≡ PutPacket 0 3 first_grant ∷ PutPacket 0 4 second_grant ∷ [] }
    ensures first_acknowledged { outputs_after lenders 0 (ticks 50 (TakePacket 0 1 received ∷ lent_twice)) ≡ PutPacket 0 3 second_grant ∷ [] }
    ensures never_lent { outputs_after lenders 0 (ticks 50 (TakePacket 0 1 received_second ∷ dollar_lent)) ≡ PutPacket 0 2 first_grant ∷ [] }
    ensures link_down { outputs_after lenders 1 (TakePacket 0 1 first_grant ∷ LinkDown 0 ∷ []) ≡ PutPacket 0 1 received ∷ [] }
    ensures to_borrower { refusal lenders 1 [] (TakePacket 0 1 first_grant) ≡ None }
    ensures at_home { load_after home_lends 1 (Lend 0 card_number march_14 100 ∷ []) ≡ 1 }
    ensures no_check_digit { refusal home_lends 1 [] (Lend 0 wrong_number march_14 100) ≡ None }
{}

/// Of several faults the first in this order is given: the type, a missing element, a foreign acquirer, a wrong actual amount; and that
/// an amount may not be lent comes before that no place is left. The actual amount is looked at in reversals of every type.
pub fn worked_first_faults()
    ensures type_first { refusal base 1 [] (Take 0 1 (as_kind K0400 request)) ≡ Some TypeNotForGate }
    ensures missing_first { refusal base 1 [] (Enter request_without_currency) ≡ Some (Missing 49) }
    ensures foreign_first { refusal base 1 [] (Enter (reversal_leaving twenty_dollars)) ≡ Some ForeignAcquirer }
    ensures repeated_reversal { refusal base 0 [] (Enter (as_kind K0401 (reversal_leaving twenty_dollars))) ≡ Some Replacement }
    ensures taken_reversal { refusal base 1 [] (Take 0 1 (as_kind K0420 (reversal_leaving twenty_dollars))) ≡ Some Replacement }
    ensures full_amount { refusal base 0 [] (Enter (reversal_leaving ten_dollars)) ≡ None }
    ensures not_lent_first { (past : History) → load lenders 0 past ≡ 65536 → refusal lenders 0 past (lend_to_b 0) ≡ Some NotLent }
{}
