// What holds of texts as a whole. A caller gets each of these facts by the call, which does nothing.
ghost use Rattle.script_text.specs.Laws.{LinesOfTexts, RowsFit};

/// Lines do not depend on how their text is cut, and are what stands between its line feeds.
pub fn lines_of_texts()
    ensures { LinesOfTexts }
{}

/// The test of what fits a table decides the schema's relation.
pub fn rows_fit()
    ensures { RowsFit }
{}
