ghost use Rattle.std.specs.Prelude.{◌≡◌, ◌<◌, [], IfOk, length};
ghost use Rattle.std.specs.Option.{ForSome, option_map_or};
ghost use Rattle.csv.specs.Writing.{default_writer, field_text};
ghost use Rattle.like_replies.specs.Rows.{name_of};

use csv::Writer;
use like_requests::Pages;
use std::alloc::{AllocError, Global};
use std::marker::Model;

/// The pages, each with the text of its name.
#[derive(Drop)]
pub struct Names<'a> {
    pages: &'a Pages,
    texts: Vec<Vec<u8>>,
}

impl<'a> Model for Names<'a> {
    ghost use Rattle.std.specs.Prelude.{◌≡◌, List, map};
    ghost use Rattle.csv.specs.Writing.{default_writer, field_text};
    ghost use Rattle.like_requests.specs.Pages.{Page};

    ghost Value = { List Page };

    ghost view = { λ n. n.pages.now };

    ghost invariant = { λ n. map (λ text. text.items) n.texts.items
        ≡ map (λ page. field_text default_writer page.name) n.pages.now };
}

impl<'a> Names<'a> {
    /// These pages.
    pub fn new(alloc: Global, pages: &'a Pages) -> Result<Self, AllocError>
        ensures { IfOk result (λ names. names ≡ pages.now) }
    {
        let mut texts = Vec::with_capacity(alloc, pages.len() as usize)?;
        for page in 0..pages.len() {
            texts.push(text_of(alloc, pages.name(page).as_bytes())?)?;
        }
        Ok(Names { pages, texts })
    }

    /// How many pages there are.
    pub fn len(&self) -> u32
        ensures { result ≡ length self.now }
    {
        self.pages.len()
    }

    /// How many bytes the longest text of a name has.
    pub fn longest(&self) -> usize {
        self.texts
            .iter()
            .fold(0, |longest: usize, text| longest.max(text.len()))
    }

    /// The text of a page's name, which has quotes where it needs them.
    pub fn text(&self, page: u32) -> &[u8]
        requires { page < length self.now }
        ensures { result.now ≡ field_text default_writer (name_of self.now page) }
    {
        &self.texts[page as usize]
    }

    /// The text of the name of the page of a last like, or none where there is no like.
    pub fn text_of_last(&self, last: Option<u32>) -> &[u8]
        requires { ForSome last (λ page. page < length self.now) }
        ensures { result.now
            ≡ field_text default_writer (option_map_or (name_of self.now) last []) }
    {
        match last {
            Some(page) => self.text(page),
            None => b"",
        }
    }
}

// The text of a field.
fn text_of(alloc: Global, field: &[u8]) -> Result<Vec<u8>, AllocError>
    ensures { IfOk result (λ text. text.items ≡ field_text default_writer field.now) }
{
    let mut writer = Writer::from_writer(Vec::new(alloc));
    if writer.write_field(field).is_err() {
        return Err(AllocError);
    }
    let Ok(text) = writer.into_inner() else {
        return Err(AllocError);
    };
    Ok(text)
}
