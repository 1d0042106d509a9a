// Text on a lent page, and places in a text.
#![tactic(auto)]

ghost use Rattle.std.specs.Prelude.{◌≡◌, ◌≤◌, length};
ghost use Rattle.pages.specs.Pages.{put, behind};
ghost use Rattle.pages.specs.Places.{index_of};

// Puts a text from a place on, as far as the page goes, and answers the place behind the last letter that it put. The rest of the page
// stays.
pub fn text(page: &mut [u8], at: usize, text: &[u8]) -> usize
    ensures value { result ≡ behind page.old at text.now }
    ensures page_after { page.new ≡ put page.old at text.now }
    ensures text_unchanged { text.exit.now ≡ text.entry.now }
{
    // No call of the C library for a text without letters, such as an empty line.
    if text.is_empty() {
        return at;
    }
    if page.len() < at {
        return at;
    }
    let fit = (page.len() - at).min(text.len());
    page[at..at + fit].copy_from_slice(&text[..fit]);
    at + fit
}

// The place of the first such letter; where there is none, the text's end.
pub fn find(text: &[u8], letter: u8) -> usize
    ensures value { result ≡ index_of letter text.now }
    ensures within { result ≤ length text.now }
    ensures text_unchanged { text.exit.now ≡ text.entry.now }
{
    text.iter()
        .position(|one| *one == letter)
        .unwrap_or(text.len())
}
