//! Steps that are worked by hand from bytes to bytes.
ghost use Rattle.std.specs.Prelude.{◌≡◌, List, [], ◌++◌, length, codes, Some, None, Ok};
ghost use Rattle.iso_message.specs.Messages.{read};
ghost use Rattle.message_elements.specs.declared.fault.DecodeFault.TheVariants.{Short, BadType};
ghost use Rattle.network_law.specs.declared.fault.StepFault.TheVariants.{Decode, HistoryFull};
ghost use Rattle.iso_message.specs.Spelling.{spelling};
ghost use Rattle.network_law.specs.Entries.{Input, Enter, Take, LinkUp, Entry};
ghost use Rattle.network_law.specs.Runs.{IsLegal, step_refusal};
ghost use Rattle.law_evidence.specs.Worked.{base, lenders};
ghost use Rattle.law_evidence.specs.WorkedBytes.{request_bytes, forwarded_bytes, answered_bytes, bytes_at_a, bytes_at_h, grant_received};
ghost use Rattle.law_evidence.specs.WorkedRequest.{approval, forwarded_request, request};

/// A request is read from its bytes, forwarded, asked, approved and answered, byte for byte as the first example prints it.
pub fn worked_bytes()
    ensures request { spelling request ≡ request_bytes }
    ensures forwarded { spelling forwarded_request ≡ forwarded_bytes }
    ensures answered { spelling approval ≡ answered_bytes }
    ensures read { read request_bytes ≡ Ok request }
    ensures at_a { IsLegal base 0 bytes_at_a }
    ensures at_h { IsLegal base 1 bytes_at_h }
{}

/// Bytes that are no message are refused with the first fault in them; a packet is one only where it is taken, and where nothing of it
/// is wrong. After 1,000,000 entries everything is refused.
pub fn worked_faults_of_bytes()
    ensures empty { step_refusal base 0 [] (Enter []) ≡ Some (Decode Short) }
    ensures cut { step_refusal base 0 [] (Enter (codes "0100722")) ≡ Some (Decode Short) }
    ensures packet { step_refusal lenders 0 [] (Take 0 1 grant_received) ≡ None }
    ensures packet_entered { step_refusal lenders 0 [] (Enter grant_received) ≡ Some (Decode BadType) }
    ensures like_a_packet { step_refusal lenders 0 [] (Take 0 1 (grant_received ++ codes "0")) ≡ Some (Decode BadType) }
    ensures last_entry { (trace : List Entry) → length trace ≡ 999999 → step_refusal base 0 trace (LinkUp 0) ≡ None }
    ensures history_full { (trace : List Entry) (input : Input) → length trace ≡ 1000000 → step_refusal base 0 trace input ≡ Some HistoryFull }
{}
