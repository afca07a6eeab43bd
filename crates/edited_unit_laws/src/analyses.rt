// What is true of analyses over edited files: laws that no caller runs, and that callers' proofs cite.
ghost use Rattle.edited_unit_laws.specs.Alone.{OneTextIsRenamed, UnitAloneIsRenamed};
ghost use Rattle.edited_unit_laws.specs.Analyses.{AnalysesHaveTexts, WorkspaceAnalysisIsRenamed, TextsHaveAnalyses, UnitAnalysesAreRenamed};
ghost use Rattle.edited_unit_laws.specs.FileTokens.{FileTokensAreRenamed};
ghost use Rattle.edited_unit_laws.specs.Links.{LinksAreRenamed};

/// The analysis of units is their texts, each of which is read and bound: units that are analysed have these texts, and
/// texts of which each is read and bound are those of units that are analysed, with this tree and this binding.
pub fn analyses_are_texts_that_read()
    ensures texts { AnalysesHaveTexts }
    ensures analyses { TextsHaveAnalyses }
{}

/// Over the edited files the analysis is the renamed one, where the renaming keeps what it must of each unit and the
/// renamed texts read and bind as before: of the units from some number on, and of all.
pub fn analyses_are_renamed()
    ensures units { UnitAnalysesAreRenamed }
    ensures all { WorkspaceAnalysisIsRenamed }
{}

/// The links of the renamed analysis are the renamed links, where external names stay alike and apart, and links are
/// those of identifiers that are alike as before.
pub fn links_are_renamed()
    ensures { LinksAreRenamed }
{}

/// The file tokens of the renamed analysis are the renamed file tokens, where those of each file are so.
pub fn file_tokens_are_renamed()
    ensures { FileTokensAreRenamed }
{}

/// A unit by itself has the renamed text over the edited files, where the renaming keeps of it what it must.
pub fn units_alone_are_renamed()
    ensures unit { UnitAloneIsRenamed }
    ensures text { OneTextIsRenamed }
{}
