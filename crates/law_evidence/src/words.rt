//! The terms by which a node decides, in plain words.
ghost use Rattle.network_law.specs.Plain.{OpenedByFirst, OpenedOnce, EachIsOfItsKey, FailInOpeningOrder, AnsweredByFirst, ForwardedByFirst, AskedByNumber, CountsAsks, CountsPuts, UpByLast, DatedByLast, CountsTicks, UsedIsSum, LeavesLeast, LeavesOne, LeavesNoMore, LeavesAll, LateIsReversed};
ghost use Rattle.law_evidence.specs.PlainAdvices.{Has00BySaid, ApprovedByFirst, FirstApproves, KnownAfterInput, KnownAfterOutput, AdvicesOnce, KnownHasAdvice, AdviceIsKnown, ReversedHasAdvice, AdviceReverses, StoredAreAdvices, AdvicesAreStored, WasPutHasPut, PutWasPut, LoadIsSum};
ghost use Rattle.law_evidence.specs.PlainContents.{AskedByAsks, OpenedInOrder, ApprovalsOnce, AdviceIsFirst, AckedAfterStoring};
ghost use Rattle.law_evidence.specs.PlainLate.{LateIsSuch, SuchIsLate};
ghost use Rattle.network_law.specs.PlainGrants.{PacketsAreExact, PacketsAreRead, GrantsAreLends, TakenByFirst, TakenOnce, RepeatsAddNothing, NewAdds, BorrowedIsSum, LentIsSum, AckedByPacket, StoredGrantsAreDue, StoredAdvicesAreDue, DueInStoredOrder};

/// The terms that are defined event by event are the firsts, the filters and the sums that they stand for.
pub fn plain_words()
    ensures opened_by_first { OpenedByFirst }
    ensures opened_once { OpenedOnce }
    ensures of_its_key { EachIsOfItsKey }
    ensures fail_in_order { FailInOpeningOrder }
    ensures answered_by_first { AnsweredByFirst }
    ensures forwarded_by_first { ForwardedByFirst }
    ensures asked_by_number { AskedByNumber }
    ensures asks { CountsAsks }
    ensures serials { CountsPuts }
    ensures links { UpByLast }
    ensures dates { DatedByLast }
    ensures count { CountsTicks }
    ensures used { UsedIsSum }
    ensures left_least { LeavesLeast }
    ensures left_one { LeavesOne }
    ensures left_no_more { LeavesNoMore }
    ensures left_all { LeavesAll }
    ensures late { LateIsReversed }
{}

/// And so those of own approvals and of advices.
pub fn plain_words_of_advices()
    ensures has_00 { Has00BySaid }
    ensures approved { ApprovedByFirst }
    ensures approves { FirstApproves }
    ensures after_input { KnownAfterInput }
    ensures after_output { KnownAfterOutput }
    ensures once { AdvicesOnce }
    ensures known { KnownHasAdvice }
    ensures knows { AdviceIsKnown }
    ensures reversed { ReversedHasAdvice }
    ensures reverses { AdviceReverses }
    ensures stored { StoredAreAdvices }
    ensures stores { AdvicesAreStored }
    ensures was_put { WasPutHasPut }
    ensures puts { PutWasPut }
    ensures load { LoadIsSum }
{}

/// What is asked and open, and that no key stands twice among the own approvals. The advice of an identity is the first one that was
/// made or accepted, with its message, its count and whether it was made here, and it is acknowledged where that came after it.
pub fn plain_words_of_contents()
    ensures asked { AskedByAsks }
    ensures opened { OpenedInOrder }
    ensures approved_once { ApprovalsOnce }
    ensures first { AdviceIsFirst }
    ensures acked { AckedAfterStoring }
{}

/// Which approvals come late; clause `late` of `plain_words` says what follows.
pub fn plain_words_of_late_approvals()
    ensures late { LateIsSuch }
    ensures such { SuchIsLate }
{}

/// And so those of lent amounts; what is due is all that is stored and due, in the order in which it was stored.
pub fn plain_words_of_lent_amounts()
    ensures bytes { PacketsAreExact }
    ensures read { PacketsAreRead }
    ensures made { GrantsAreLends }
    ensures taken { TakenByFirst }
    ensures taken_once { TakenOnce }
    ensures repeated { RepeatsAddNothing }
    ensures new { NewAdds }
    ensures borrowed { BorrowedIsSum }
    ensures lent { LentIsSum }
    ensures acked { AckedByPacket }
    ensures due_grants { StoredGrantsAreDue }
    ensures due_advices { StoredAdvicesAreDue }
    ensures due_in_order { DueInStoredOrder }
{}
