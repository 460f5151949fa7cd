// Laws of questions.
ghost use Rattle.dc_question.specs.Ordered.{QuestionOrder};

/// The order of questions: by their places, and at one place by what is asked.
pub fn order_laws()
    ensures { QuestionOrder }
{}
