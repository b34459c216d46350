//! Steps, traces and a run that are worked by hand: the definitions say what they should.
ghost use Rattle.std.specs.Prelude.{◌≡◌, [], ◌∷◌, ◌++◌, drop, codes, Some, None};
ghost use Rattle.network_law.specs.Grants.{packet_bytes, read_packet};
ghost use Rattle.network_law.specs.Traces.{History, load, used, Enter, Take, TakePacket, LinkDown, HostAnswer, NewDate, Lend, Put, PutPacket, Answer, Ask, Post};
ghost use Rattle.network_law.specs.declared.fault.StepFault.TheVariants.{ForeignAcquirer, Missing, TypeNotForGate, UnknownAsk, Replacement, NotLent, NoPlace};
ghost use Rattle.network_law.specs.Refusals.{refusal};
ghost use Rattle.message_keys.specs.Keys.{identity_of};
ghost use Rattle.network_law.specs.Entries.{read_history, spelled_trace};
ghost use Rattle.network_law.specs.Claims.{post_count, exposure};
ghost use Rattle.network_law.specs.Checked.{IsChecked, IsRanked, IsBounded};
ghost use Rattle.network_law.specs.Runs.{IsLegal, IsRun};
ghost use Rattle.law_evidence.specs.Worked.{next_alternate_in_time, base, limited, diamond, one, two, three, four, ten_dollars, six_dollars, four_dollars, one_cent, outputs_after, card_number, ticks, next_alternate, stood_in_though_reversed, late_approval_dropped, same_tick_not_counted, advice_dropped_when_sent, own_reversal_frees, reversed_run, lent_run, two_hops, hop_ranks, hops_run, base_ranks, lenders, lender_ranks, lend_to_b, received, three_dollars, two_dollars, partial_frees_all, repeated_grant_counted, lent_amount_used, grant_dropped_when_put, EnteredIsAnswered, march_14, march_15, used_after};
ghost use Rattle.law_evidence.specs.WorkedLate.{late_run};
ghost use Rattle.law_evidence.specs.WorkedRequest.{accepts_reversal, approval, changed_request, changed_response_94, changed_reversal_request, changed_reversal_response_94, forwarded_request, home_reversal_advice, host_approves, host_declined, partial_reversal_request, posts_reversal_advice, repeated_reversal_advice, request, request_approved, request_asked, request_declined, request_pending, request_reversed, request_without_acquirer, request_without_currency, response_05, response_68, response_91, response_94, response_96, reversal_advice, reversal_advice_repeated, reversal_advice_response, reversal_leaving, reversal_of_other_acquirer, reversal_request, reversal_response, reversal_taken, reversal_without_original, stand_in_advice, stands_in};
ghost use Rattle.law_evidence.specs.WorkedLimits.{borrowed_used, borrower_alone, cent_advices, cent_fails, declines_91, dollar_lent, enters, euro_request, euro_response_57, first_grant, first_within_second_above, grant_taken, lender_alone, lender_limit_used, limit_lent, limit_used, own_limit_used, partly_reversed, partly_reversed_again, rest_used, six_approved, six_given_back, six_reversal, six_reversal_response, six_reversed, six_used_again, sixes_pending, ten_approved, ApprovesAfter, ApprovesAtBAfter, Declines61After, Declines61AtBAfter};
ghost use Rattle.law_evidence.specs.WorkedPlaces.{AnswersEntered, LateAtLoad, NewAdviceAtLoad, NewReversalAtLoad, NewTodayAtLoad, UnusedAtLoad};
ghost use Rattle.law_evidence.specs.WorkedDeclined.{response_14, response_92, unissued_card_request, wrong_card_request};
ghost use Rattle.law_evidence.specs.WorkedBytes.{grant_bytes};

/// A request is forwarded with its settlement date, asked of the host, and answered; a repeat gets the same answer, and the answer
/// again gives nothing. Bad cards and those without an issuer are declined, and no 94 is passed on.
pub fn worked_answers()
    ensures forwarded { outputs_after base 0 (Enter request ∷ []) ≡ Put 0 1 forwarded_request ∷ [] }
    ensures asked { outputs_after base 1 (Take 0 1 forwarded_request ∷ []) ≡ Ask 1 forwarded_request ∷ [] }
    ensures approved { outputs_after base 1 (host_approves ∷ request_asked) ≡ Put 0 1 approval ∷ [] }
    ensures answered { outputs_after base 0 (Take 0 1 approval ∷ request_pending) ≡ Answer approval ∷ [] }
    ensures repeated { EnteredIsAnswered base request_approved request approval }
    ensures other_content { EnteredIsAnswered base request_pending changed_request changed_response_94 }
    ensures bad_card { EnteredIsAnswered base [] wrong_card_request response_14 }
    ensures no_issuer { EnteredIsAnswered base [] unissued_card_request response_92 }
    ensures link_says_94 { outputs_after base 0 (Take 0 1 response_94 ∷ request_pending) ≡ Answer response_96 ∷ [] }
    ensures host_says_94 { outputs_after base 1 (HostAnswer 1 (codes "94") ∷ request_asked) ≡ Put 0 1 response_05 ∷ [] }
    ensures answered_again { outputs_after base 0 (Take 0 1 approval ∷ request_approved) ≡ [] }
{}

/// Where a link goes down or a request's time is over, its reversal is sent and the node decides by itself; an advice is sent again
/// after its ticks, and an approval that comes late is reversed, by a link or by the host. A reversal of other content is answered 94.
pub fn worked_reversals()
    ensures link_failed { outputs_after diamond 0 (LinkDown 0 ∷ request_pending) ≡ stands_in one ten_dollars (Put 1 1) (Put 1 2) }
    ensures timed_out { outputs_after base 0 (ticks 3 request_pending) ≡ Put 0 2 reversal_advice ∷ Answer response_91 ∷ [] }
    ensures sent_again { outputs_after base 0 (ticks 53 request_pending) ≡ Put 0 3 repeated_reversal_advice ∷ [] }
    ensures not_sooner { outputs_after base 0 (ticks 52 request_pending) ≡ [] }
    ensures late_approval { outputs_after base 0 (Take 0 2 approval ∷ request_declined) ≡ Put 0 2 reversal_advice ∷ [] }
    ensures late_host { outputs_after base 1 (host_approves ∷ host_declined) ≡ Post home_reversal_advice ∷ [] }
    ensures other_content { EnteredIsAnswered base request_pending changed_reversal_request changed_reversal_response_94 }
    ensures reversed_before { outputs_after base 0 (Take 0 1 approval ∷ ticks 3 request_pending) ≡ [] }
    ensures acknowledged { outputs_after base 0 (ticks 50 (Take 0 1 reversal_advice_response ∷ ticks 53 request_pending)) ≡ [] }
    ensures reversed_while_pending { outputs_after base 0 request_reversed ≡ Answer response_68 ∷ accepts_reversal (Put 0 2) }
    ensures taken_after_reversal { outputs_after base 1 (Take 0 1 forwarded_request ∷ reversal_taken 2) ≡ Put 0 2 response_68 ∷ [] }
    ensures posted { outputs_after base 1 (Take 0 2 reversal_advice ∷ []) ≡ posts_reversal_advice }
    ensures posted_once { outputs_after base 1 reversal_advice_repeated ≡ Put 0 2 reversal_advice_response ∷ [] }
{}

/// What a node approves by itself stays within its limit, which an entered reversal gives back, and a request that fails at the same
/// tick is counted.
pub fn worked_limits()
    ensures within { ApprovesAfter limited six_approved two four_dollars }
    ensures above { Declines61After limited limit_used three one_cent }
    ensures reversed_twice { EnteredIsAnswered limited six_reversed six_reversal six_reversal_response }
    ensures given_back { ApprovesAfter limited six_given_back three six_dollars }
    ensures given_back_once { Declines61After limited six_used_again four one_cent }
    ensures used { used_after limited 0 six_approved march_14 ≡ 600 }
    ensures used_on_another_date { used_after limited 0 six_approved march_15 ≡ 0 }
    ensures used_no_more { used_after limited 0 six_reversed march_14 ≡ 0 }
    ensures new_date { outputs_after base 0 (Enter request ∷ NewDate march_14 ∷ NewDate march_15 ∷ []) ≡ Put 0 1 forwarded_request ∷ [] }
    ensures other_currency { EnteredIsAnswered limited (LinkDown 0 ∷ []) euro_request euro_response_57 }
    ensures same_tick { outputs_after limited 0 (ticks 3 sixes_pending) ≡ first_within_second_above }
{}

/// A partial reversal leaves its actual amount, and frees the rest once.
pub fn worked_partial_reversals()
    ensures approved { EnteredIsAnswered limited (LinkDown 0 ∷ []) request approval }
    ensures accepted { EnteredIsAnswered limited ten_approved partial_reversal_request reversal_response }
    ensures rest_freed { ApprovesAfter limited partly_reversed two six_dollars }
    ensures no_more_freed { Declines61After limited rest_used three one_cent }
    ensures again { EnteredIsAnswered limited rest_used partial_reversal_request reversal_response }
    ensures freed_once { Declines61After limited partly_reversed_again three one_cent }
    ensures used { used_after limited 0 partly_reversed march_14 ≡ 400 }
{}

/// A node lends a part of its limit to another: its grant is put again until it is acknowledged, and counts once however often it is
/// taken.
pub fn worked_lent_amounts()
    ensures lent { outputs_after lenders 0 dollar_lent ≡ PutPacket 0 1 first_grant ∷ [] }
    ensures spelled { packet_bytes first_grant ≡ grant_bytes }
    ensures read { read_packet grant_bytes ≡ Some first_grant }
    ensures read_received { read_packet (codes "GACK000000010010000000001") ≡ Some received }
    ensures too_long { read_packet (codes "GACK0000000100100000000010") ≡ None }
    ensures taken { outputs_after lenders 1 grant_taken ≡ PutPacket 0 1 received ∷ [] }
    ensures taken_again { outputs_after lenders 1 (TakePacket 0 1 first_grant ∷ grant_taken) ≡ PutPacket 0 2 received ∷ [] }
    ensures borrowed { ApprovesAtBAfter borrower_alone one three_dollars }
    ensures no_more { Declines61AtBAfter borrowed_used two one_cent }
    ensures left_to_lender { ApprovesAfter lenders lender_alone one two_dollars }
    ensures no_more_left { Declines61After lenders lender_limit_used two one_cent }
    ensures own_limit { ApprovesAtBAfter (LinkDown 2 ∷ []) one two_dollars }
    ensures not_taken { Declines61AtBAfter own_limit_used two one_cent }
    ensures all_lent { outputs_after lenders 0 (enters one one_cent ∷ limit_lent) ≡ declines_91 one one_cent ∷ [] }
    ensures put_again { outputs_after lenders 0 (ticks 50 dollar_lent) ≡ PutPacket 0 2 first_grant ∷ [] }
    ensures grant_first { outputs_after lenders 0 (ticks 50 (cent_fails dollar_lent)) ≡ PutPacket 0 2 first_grant ∷ cent_advices }
    ensures advices_first { outputs_after lenders 0 (ticks 50 (lend_to_b 100 ∷ cent_fails [])) ≡ cent_advices ++ PutPacket 0 2 first_grant ∷ [] }
    ensures acknowledged { outputs_after lenders 0 (ticks 50 (TakePacket 0 1 received ∷ dollar_lent)) ≡ [] }
    ensures link_down { outputs_after lenders 0 (lend_to_b 100 ∷ LinkDown 0 ∷ []) ≡ [] }
    ensures above { refusal lenders 0 [] (lend_to_b 301) ≡ Some NotLent }
    ensures nothing { refusal lenders 0 [] (lend_to_b 0) ≡ Some NotLent }
    ensures not_named { refusal lenders 0 [] (Lend 2 card_number march_14 100) ≡ Some NotLent }
    ensures not_joined { refusal lenders 0 [] (Lend 0 card_number march_14 100) ≡ Some NotLent }
    ensures for_another { refusal lenders 0 [] (TakePacket 0 1 first_grant) ≡ Some NotLent }
    ensures may { refusal lenders 0 [] (lend_to_b 300) ≡ None }
{}

/// Where all places are taken, after whatever came before: a request that finds but one of its two is declined, and a reversal, an
/// advice, a late approval and a grant that find none are refused.
pub fn worked_full_load()
    ensures request { (past : History) → NewTodayAtLoad 65535 base past → AnswersEntered base past request response_96 }
    ensures reversal { (past : History) → NewReversalAtLoad 65536 base 0 past reversal_request → refusal base 0 past (Enter reversal_request) ≡ Some NoPlace }
    ensures last_place { (past : History) → NewReversalAtLoad 65535 base 0 past reversal_request → refusal base 0 past (Enter reversal_request) ≡ None }
    ensures advice { (past : History) → NewAdviceAtLoad 65536 base 0 past → refusal base 0 past (Take 0 1 stand_in_advice) ≡ Some NoPlace }
    ensures late_approval { (past : History) → LateAtLoad 65536 past → refusal base 0 past (Take 0 2 approval) ≡ Some NoPlace }
    ensures grant { (past : History) → UnusedAtLoad 65536 past → refusal lenders 0 past (lend_to_b 100) ≡ Some NoPlace }
{}

/// What a node refuses, and with which fault.
pub fn worked_refusals()
    ensures none { refusal base 0 [] (Enter request) ≡ None }
    ensures foreign { refusal base 1 [] (Enter request) ≡ Some ForeignAcquirer }
    ensures missing { refusal base 0 [] (Enter request_without_currency) ≡ Some (Missing 49) }
    ensures first_missing { refusal base 0 [] (Enter request_without_acquirer) ≡ Some (Missing 32) }
    ensures no_date { refusal base 1 [] (Take 0 1 request) ≡ Some (Missing 15) }
    ensures no_original { refusal base 0 [] (Enter reversal_without_original) ≡ Some (Missing 90) }
    ensures strange_original { refusal base 0 [] (Enter reversal_of_other_acquirer) ≡ Some (Missing 90) }
    ensures answer_entered { refusal base 0 [] (Enter approval) ≡ Some TypeNotForGate }
    ensures reversal_taken { refusal base 1 [] (Take 0 1 reversal_request) ≡ Some TypeNotForGate }
    ensures partial { refusal limited 0 [] (Enter partial_reversal_request) ≡ None }
    ensures partial_above { refusal limited 0 [] (Enter (reversal_leaving (codes "000000001001"))) ≡ Some Replacement }
    ensures partial_no_number { refusal limited 0 [] (Enter (reversal_leaving (codes "00000000 400"))) ≡ Some Replacement }
    ensures unknown_ask { refusal base 1 [] host_approves ≡ Some UnknownAsk }
{}

/// The premises of the law are met by the base network and a run of it, in which a reversal is made, sent, posted and acknowledged;
/// and in a run of another a grant is taken twice.
pub fn worked_run()
    ensures checked { IsChecked base }
    ensures ranked { IsRanked base base_ranks }
    ensures bounded { IsBounded base }
    ensures run { IsRun base (λ n. spelled_trace (reversed_run n)) }
    ensures lenders_checked { IsChecked lenders }
    ensures lenders_ranked { IsRanked lenders lender_ranks }
    ensures lenders_bounded { IsBounded lenders }
    ensures lent_run { IsRun lenders (λ n. spelled_trace (lent_run n)) }
{}

/// And by a run of two hops: a host approves, a node stands in, its advice is posted at the home, and a reversal frees what was used.
pub fn worked_two_hops()
    ensures checked { IsChecked two_hops }
    ensures ranked { IsRanked two_hops hop_ranks }
    ensures bounded { IsBounded two_hops }
    ensures run { IsRun two_hops (λ n. spelled_trace (hops_run n)) }
    ensures used { used two_hops 0 (read_history (drop 4 (hops_run 0))) card_number march_14 ≡ 1000 }
    ensures freed { used two_hops 0 (read_history (drop 3 (hops_run 0))) card_number march_14 ≡ 0 }
{}

/// And by one in which the host's approval comes after the node stood in, and an acknowledgement is lost: the reversal of the request
/// and the stand-in advice are posted once each, no place stays taken, and the amount is used once.
pub fn worked_late_run()
    ensures run { IsRun two_hops (λ n. spelled_trace (late_run n)) }
    ensures reversal_posted { post_count (read_history (late_run 2)) (identity_of reversal_advice) ≡ 1 }
    ensures advice_posted { post_count (read_history (late_run 2)) (identity_of stand_in_advice) ≡ 1 }
    ensures places_at_a { load two_hops 0 (read_history (late_run 0)) ≡ 0 }
    ensures places_at_b { load two_hops 1 (read_history (late_run 1)) ≡ 0 }
    ensures exposure { exposure two_hops (λ n. read_history (late_run n)) card_number march_14 ≡ 1000 }
{}

/// Traces of nodes that decide otherwise aren't legal.
pub fn wrong_traces_are_not_legal()
    ensures next_alternate { IsLegal diamond 0 (spelled_trace next_alternate) → ⊥ }
    ensures next_alternate_in_time { IsLegal diamond 0 (spelled_trace next_alternate_in_time) → ⊥ }
    ensures stood_in_though_reversed { IsLegal limited 0 (spelled_trace stood_in_though_reversed) → ⊥ }
    ensures late_approval_dropped { IsLegal base 0 (spelled_trace late_approval_dropped) → ⊥ }
    ensures same_tick_not_counted { IsLegal limited 0 (spelled_trace same_tick_not_counted) → ⊥ }
    ensures advice_dropped_when_sent { IsLegal base 0 (spelled_trace advice_dropped_when_sent) → ⊥ }
    ensures partial_frees_all { IsLegal limited 0 (spelled_trace partial_frees_all) → ⊥ }
    ensures repeated_grant_counted { IsLegal lenders 1 (spelled_trace repeated_grant_counted) → ⊥ }
    ensures lent_amount_used { IsLegal lenders 0 (spelled_trace lent_amount_used) → ⊥ }
    ensures grant_dropped_when_put { IsLegal lenders 0 (spelled_trace grant_dropped_when_put) → ⊥ }
    ensures own_reversal_frees { IsLegal limited 0 (spelled_trace own_reversal_frees) → ⊥ }
{}
