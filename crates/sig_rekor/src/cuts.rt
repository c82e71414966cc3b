//! Cutting a text at a separator.
ghost use Rattle.std.specs.Prelude.{◌≡◌, ◌<◌, length, option_map, IfSome};
ghost use Rattle.sig_rekor.specs.TextCuts.{cut_at, trimmed as without_marks};
ghost use Rattle.sig_rekor.specs.NoteText.{is_blank};

/// What is before and after the first separator, or `None` if there is none.
pub(crate) fn cut<'a>(text: &'a str, separator: &str) -> Option<(&'a str, &'a str)>
    requires { 0 < length separator.now }
    ensures cut { option_map (λ x. (x.0.now, x.1.now)) result ≡ cut_at separator.now text.now }
    ensures shorter { IfSome result (λ x. length x.1.now < length text.now) }
{
    text.split_once(separator)
}

/// The text without the marks at both its ends. The mark is an ASCII character.
pub(crate) fn trimmed(text: &str, mark: char) -> &str
    requires { mark < 128 }
    ensures { result.now ≡ without_marks mark text.now }
{
    text.trim_start_matches(mark).trim_end_matches(mark)
}

/// Whether a text is only white space, as `char::is_whitespace` says.
#[tactic(auto, unfolding(crate::specs::NoteText::is_blank))]
pub(crate) fn is_blank(text: &str) -> bool
    ensures { result ≡ is_blank text.now }
{
    text.trim().is_empty()
}
