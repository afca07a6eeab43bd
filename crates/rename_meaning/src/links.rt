// What a renaming against which nothing stands keeps of links: laws that no caller runs, and that callers' proofs cite.
ghost use Rattle.rename_meaning.specs.KeptLinks.{LinksAreKept, LinksAreRenamedWhereAllowed, RenamedNamesDenoteAlike};

/// External names of the units of a project are spelled alike exactly where they were, and each link is of alike
/// identifiers exactly where it was. So the links of the renamed analysis are the renamed links, in their order,
/// and two identifiers of external linkage denote one entity there exactly where they did.
pub fn links_are_kept()
    ensures kept { LinksAreKept }
    ensures renamed { LinksAreRenamedWhereAllowed }
    ensures names { RenamedNamesDenoteAlike }
{}
