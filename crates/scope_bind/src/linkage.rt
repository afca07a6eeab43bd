// Linkages of identifiers (ISO/IEC 9899:1999, 6.2.2).
ghost use Rattle.std.specs.Prelude.{◌≡◌};
ghost use Rattle.std.specs.Option.{option_map};
ghost use Rattle.scope_bind.specs.Linkage.{prior_linkage, follows_prior, own_linkage, linkage_of};

use c_types::{Declaration, Linkage, Words};
use name_chains::has_linkage;

fn prior_linkage(prior: Option<&Declaration>) -> Linkage
    ensures { result ≡ prior_linkage (option_map (λ d. d.now) prior.entry) }
{
    match prior {
        None => Linkage::External,
        Some(d) => {
            if has_linkage(d.linkage) {
                d.linkage
            } else {
                Linkage::External
            }
        }
    }
}

fn follows_prior(depth: u32, of_function: bool, words: Words) -> bool
    ensures { result ≡ follows_prior depth of_function words }
{
    if depth == 0 {
        !words.has_static && (words.has_extern || (of_function && !words.has_any))
    } else {
        words.has_extern || (of_function && !words.has_static)
    }
}

fn own_linkage(depth: u32, words: Words) -> Linkage
    ensures { result ≡ own_linkage depth words }
{
    if depth == 0 {
        if words.has_static {
            Linkage::Internal
        } else if words.has_any {
            Linkage::Absent
        } else {
            Linkage::External
        }
    } else {
        Linkage::Absent
    }
}

/// The linkage of an object or function with these words, with so many scopes around.
pub(crate) fn linkage_of(
    depth: u32,
    of_function: bool,
    words: Words,
    prior: Option<&Declaration>,
) -> Linkage
    ensures { result ≡ linkage_of depth of_function words (option_map (λ d. d.now) prior.entry) }
{
    if follows_prior(depth, of_function, words) {
        prior_linkage(prior)
    } else {
        own_linkage(depth, words)
    }
}
