//! What holds of reading a checked model.
ghost use Rattle.model.specs.Laws.{ReadsBack, WorksOut};

/// A checked model that holds what is written stands for what that stands for.
pub fn written_models_read_back()
    ensures { ReadsBack }
{}

/// What is worked out item by item is the value or the truth of what the items stand for.
pub fn items_work_out()
    ensures { WorksOut }
{}
