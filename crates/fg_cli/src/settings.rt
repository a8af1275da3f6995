//! The settings that follow a command, and what they say of each name.
ghost use Rattle.std.specs.Prelude.{◌≡◌, ◌+◌, ◌∷◌, ◌++◌, [], ◌<◌, ◌≤◌, ◌↔◌, IfErr, IfNone, IfOk, IfSome, IsTrue, OnOk, map, length, slice_get, string_bytes};
ghost use Rattle.fg_cli.specs.Grammar.{command_text, most_of, row, same_key};
ghost use Rattle.fg_cli.specs.Lines.{AtMost, IsKnown, IsLine, IsPlace, missing_name, missing_of, number_of, setting_text, values_of};
ghost use Rattle.fg_cli.specs.Orders.{IsFault};
ghost use Rattle.fg_cli.specs.Reading.{AreBounded, greatest_of};

use crate::grammar::{Absent, Command, Key};
use crate::{Name, ReadWords, WordFault};
use std::alloc::{AllocError, Global};

/// A name and the value that it is given.
#[derive(Clone, Copy)]
pub struct Setting {
    pub key: Key,
    pub value: u64,
}

/// The settings that the words after the command spell.
pub fn read_settings(
    alloc: Global,
    command: Command,
    words: &[String],
) -> Result<Vec<Setting>, ReadWords>
    requires { slice_get (map string_bytes words.now) 0 ≡ Some (command_text command) }
    ensures line { IfOk result
        (λ settings. IsLine (map string_bytes words.now) command settings.items) }
    ensures faults { IfErr result (IsFault (map string_bytes words.now)) }
{
    let mut settings = Vec::new(alloc);
    for i in 1..words.len() {
        let Some(setting) = next_setting(command, words[i].as_str(), &settings) else {
            return Err(ReadWords::Words(WordFault::BadWord(i)));
        };
        add(&mut settings, setting)?;
    }
    Ok(settings)
}

/// Adds a setting.
fn add(settings: &mut Vec<Setting>, setting: Setting) -> Result<(), AllocError>
    ensures { OnOk result (settings.new.items ≡ settings.old.items ++ setting ∷ []) }
{
    settings.push(setting)?;
    Ok(())
}

/// The setting that the word spells, where it may stand after the command and these settings.
fn next_setting(command: Command, word: &str, settings: &[Setting]) -> Option<Setting>
    ensures found { IfSome result
        (λ setting.
        IsKnown command setting × (word.now ≡ setting_text setting)
        × AtMost (most_of command setting.key) (length (values_of setting.key settings.now) + 1)) }
    ensures none { IfNone result
        ((setting : Setting) → IsKnown command setting → word.now ≡ setting_text setting
        → AtMost (most_of command setting.key) (length (values_of setting.key settings.now) + 1) → ⊥) }
{
    let setting = read_setting(command, word)?;
    if !may_stand(settings, command, setting.key) {
        return None;
    }
    Some(setting)
}

/// The setting that the word spells, where it may stand after the command.
fn read_setting(command: Command, word: &str) -> Option<Setting>
    ensures found { IfSome result
        (λ setting. IsKnown command setting × (word.now ≡ setting_text setting)) }
    ensures none { IfNone result
        ((setting : Setting) → IsKnown command setting → word.now ≡ setting_text setting → ⊥) }
{
    let Some((name, text)) = word.split_once('=') else {
        return None;
    };
    let Some(key) = command.key(name) else {
        return None;
    };
    let Some(value) = key.row().values.read(text) else {
        return None;
    };
    Some(Setting { key, value })
}

/// Whether the name may stand once more after the command.
fn may_stand(settings: &[Setting], command: Command, key: Key) -> bool
    ensures { IsTrue result ↔ AtMost (most_of command key) (length (values_of key settings.now) + 1) }
{
    match command.most(key) {
        None => true,
        Some(most) => count(settings, key) < most,
    }
}

/// Whether the setting is one of the name.
pub fn is_of(setting: &Setting, key: Key) -> bool
    ensures { result ≡ same_key key setting.now.key }
{
    key == setting.key
}

/// How often the name stands.
pub fn count(settings: &[Setting], key: Key) -> usize
    ensures { result ≡ length (values_of key settings.now) }
{
    let mut count = 0;
    for setting in settings {
        if is_of(setting, key) {
            count += 1;
        }
    }
    count
}

/// The value that the name is given first.
pub fn first(settings: &[Setting], key: Key) -> Option<u64>
    requires { AreBounded settings.now }
    ensures value { result ≡ slice_get (values_of key settings.now) 0 }
    ensures bound { IfSome result (λ value. value ≤ greatest_of (row key).range) }
{
    for setting in settings {
        if is_of(setting, key) {
            return Some(setting.value);
        }
    }
    None
}

/// The value that the name is given first, or its default.
pub fn number(settings: &[Setting], key: Key) -> u64
    requires { AreBounded settings.now }
    ensures value { result ≡ number_of key settings.now }
    ensures bound { result ≤ greatest_of (row key).range }
{
    if let Some(value) = first(settings, key) {
        return value;
    }
    match key.row().absent {
        Absent::Default(value) => value,
        _ => 0,
    }
}

/// The place of a setting of the name.
pub fn place(settings: &[Setting], key: Key) -> Option<usize>
    ensures found { IfSome result (IsPlace key settings.now) }
    ensures none { IfNone result (values_of key settings.now ≡ []) }
{
    for (i, setting) in settings.iter().enumerate() {
        if is_of(setting, key) {
            return Some(i);
        }
    }
    None
}

/// The first of the command's names that must be there and isn't.
pub fn missing(command: Command, settings: &[Setting]) -> Option<Name>
    ensures { result ≡ missing_of command settings.now }
{
    for key in command.keys() {
        if let Some(name) = missing_key(settings, *key) {
            return Some(name);
        }
    }
    None
}

/// The name, where it must be there and isn't.
fn missing_key(settings: &[Setting], key: Key) -> Option<Name>
    ensures { result ≡ missing_name settings.now key }
{
    if count(settings, key) != 0 {
        return None;
    }
    match key.row().absent {
        Absent::Needed(name) => Some(name),
        _ => None,
    }
}
