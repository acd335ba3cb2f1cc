//! Laws of this crate's words, which its users may rely on.

ghost use Rattle.std.specs.Prelude.{◌≡◌, ℕ, List, true, count_by, length};
ghost use Rattle.std.specs.List.{list_all};
ghost use Rattle.report.specs.Few.{few_text};
ghost use Rattle.report.specs.Summary.{is_broken, is_failing};
ghost use Rattle.ci_forms.specs.Bytes.{has_whole_entities, is_line, is_property_byte, is_text_byte};
ghost use Rattle.ci_forms.specs.Facts.{CiFacts};
ghost use Rattle.ci_forms.specs.GitHub.{break_commands, failure_commands, file_property, name_property};
ghost use Rattle.ci_forms.specs.Junit.{cases_for_few, cases_of, tests_of};
ghost use Rattle.ci_forms.specs.Xml.{xml_text};

/// GitHub gets a command for each register that fails, and no other, and one for each trace that broke.
pub fn each_failure_has_a_command()
    ensures failures { (facts : CiFacts) → length (failure_commands facts 0 facts.findings) ≡ count_by is_failing facts.findings }
    ensures breaks { (facts : CiFacts) → length (break_commands facts 0 facts.logs) ≡ count_by is_broken facts.logs }
{}

/// Each of these commands is one line, whatever names there are: no name begins a line of its own.
pub fn each_command_is_one_line()
    ensures failures { (facts : CiFacts) → list_all is_line (failure_commands facts 0 facts.findings) ≡ true }
    ensures breaks { (facts : CiFacts) → list_all is_line (break_commands facts 0 facts.logs) ≡ true }
{}

/// The suite has as many cases as it says.
pub fn the_suite_has_its_cases()
    ensures { (facts : CiFacts) → length (cases_of facts) ≡ tests_of facts (cases_for_few (few_text facts.least facts.findings)) }
{}

/// No name ends the property or the line that it is in, and no name or text in XML has what would be markup there, what
/// XML does not allow below U+0020, or an ampersand that begins no entity.
pub fn names_stay_in_their_places()
    ensures file { (name : List ℕ) → list_all is_property_byte (file_property name) ≡ true }
    ensures title { (name : List ℕ) → list_all is_property_byte (name_property name) ≡ true }
    ensures xml { (text : List ℕ) → list_all is_text_byte (xml_text text) ≡ true }
    ensures entities { (text : List ℕ) → has_whole_entities (xml_text text) ≡ true }
{}
