// The words that name a folder.

/// A form that names a folder.
#[derive(Clone, Copy, Debug, PartialEq, Eq)]
pub enum DirForm {
    /// `journal DIR`: plays a script, and makes the journals of its centres.
    Journal,
    /// `recover DIR`: opens them again.
    Recover,
}

/// The form that words ask for where it names a folder, and the folder. A folder's name is not empty and does not begin
/// with a dash.
pub fn dir_form(words: &[String]) -> Option<(DirForm, &str)> {
    match words {
        [form, folder] => {
            let folder = folder.as_str();
            if folder.is_empty() || folder.starts_with('-') {
                return None;
            }
            match form.as_str() {
                "journal" => Some((DirForm::Journal, folder)),
                "recover" => Some((DirForm::Recover, folder)),
                _ => None,
            }
        }
        _ => None,
    }
}
