//! What is handed out in all.
ghost use Rattle.session_slots.specs.Handed.{HandsOutTranscripts, HandsOutPastWants};

/// What a session prints for lines is handed out once and in order, and is what a run of the model over these lines prints.
pub fn hands_out_transcripts()
    ensures { HandsOutTranscripts }
{}

/// So it is where lines found no memory: what is handed out is what the others print, each as a turn of the model from where the
/// line before it left things.
pub fn hands_out_past_wants()
    ensures { HandsOutPastWants }
{}
