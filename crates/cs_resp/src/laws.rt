//! Laws of what is read and of what is spelled.
ghost use Rattle.std.specs.Prelude.{◌≡◌, ◌++◌, List, ℕ, Ok, Err};
ghost use Rattle.cs_resp.specs.Spelling.{spelled_request};
ghost use Rattle.cs_resp.specs.Requests.{AreSmall, IsWithin};
ghost use Rattle.cs_resp.specs.Reading.{request_at};
ghost use Rattle.cs_resp.specs.declared.faults.End.TheVariants.{Wrong};
ghost use Rattle.cs_resp.specs.declared.faults.Fault.{Fault};
ghost use Rattle.cs_resp.specs.declared.limits.Limits.{Limits};

/// More bytes change no answer: a request that was whole is read again, and a fault stays.
pub fn more_bytes_change_no_answer()
    ensures whole { (limits : Limits) (bytes tail rest : List ℕ) (request : List (List ℕ)) → AreSmall limits
        → request_at limits bytes ≡ Ok (request, rest) → request_at limits (bytes ++ tail) ≡ Ok (request, rest ++ tail) }
    ensures wrong { (limits : Limits) (bytes tail : List ℕ) (fault : Fault) → AreSmall limits
        → request_at limits bytes ≡ Err (Wrong fault) → request_at limits (bytes ++ tail) ≡ Err (Wrong fault) }
{}

/// No request's bytes begin those of another one. So requests that follow one another are read as they were sent.
pub fn no_request_begins_another()
    ensures { (limits : Limits) (a b : List (List ℕ)) (x y : List ℕ) → AreSmall limits → IsWithin limits a → IsWithin limits b
        → spelled_request a ++ x ≡ spelled_request b ++ y → (a ≡ b) × (x ≡ y) }
{}
