// The heading.
ghost use Rattle.heading_texts.specs.Headings.{HeadsTexts};
ghost use Rattle.testing.specs.SetQuestions.{HeadsSet};
ghost use Rattle.testing.specs.Headings.{HeadsTold};

use rows::cells;

// The version string and the implementation's name of a text. The number of the refusal, 0 where there is none; place and length of both, or the
// refusal's place, are told in cells.
#[unsafe(no_mangle)]
pub extern "C" fn kaukslini_heading_cells(text: &[u8], told: &mut [usize]) -> u8
    ensures { HeadsTold text.now told.old told.new result }
{
    match heading::heading(text) {
        Ok(h) => {
            let parts = [h.version_at, h.version_len, h.name_at, h.name_len];
            cells::put_cells(told, 0, &parts);
            0
        }
        Err(f) => {
            let place = [f.place];
            cells::put_cells(told, 0, &place);
            f.number
        }
    }
}

// The same of lent texts.
#[unsafe(no_mangle)]
pub extern "C" fn kaukslini_heading_texts(
    buffer: &[u8],
    lengths: &[usize],
    expanded: &mut [u8],
    origins: &mut [usize],
    told: &mut [usize],
) -> u8
    ensures { HeadsSet
        (HeadsTexts buffer.now lengths.now expanded.old origins.old
        expanded.new origins.new)
        told.old told.new result }
{
    match heading_texts::heading(buffer, lengths, expanded, origins) {
        Ok(h) => {
            let parts = [h.version_at, h.version_len, h.name_at, h.name_len];
            cells::put_cells(told, 0, &parts);
            0
        }
        Err(f) => {
            let place = [f.place];
            cells::put_cells(told, 0, &place);
            f.number
        }
    }
}
