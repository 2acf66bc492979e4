//! Laws of the texts. Each function does nothing: its contract is the law.
ghost use Rattle.std.specs.Prelude.{◌≡◌, ℕ, List, Some};
ghost use Rattle.std.specs.List.{AllByRecursion};
ghost use Rattle.ipam_records.specs.Sound.{IsHandleId};
ghost use Rattle.ipam_request_text.specs.Live.{live_reading};
ghost use Rattle.ipam_model.specs.SoundRequest.{IsSoundRequest};
ghost use Rattle.ipam_model.specs.declared.request.Request.{Request};
ghost use Rattle.ipam_request_text.specs.Reading.{request_reading};
ghost use Rattle.ipam_request_text.specs.Requests.{live_text, request_text};

/// What is read as a list of live handles has ids of handles alone, and the printed text of each
/// such list is read as that list.
pub fn live_lists_are_read_back()
    ensures sound { (text : List ℕ) (live : List (List ℕ)) → live_reading text ≡ Some live
        → AllByRecursion IsHandleId live }
    ensures back { (live : List (List ℕ)) → AllByRecursion IsHandleId live
        → live_reading (live_text live) ≡ Some live }
{}

/// What is read as a request is sound, and the printed text of each sound request is read as that
/// request.
pub fn requests_are_read_back()
    ensures sound { (text : List ℕ) (request : Request) → request_reading text ≡ Some request
        → IsSoundRequest request }
    ensures back { (request : Request) → IsSoundRequest request
        → request_reading (request_text request) ≡ Some request }
{}
