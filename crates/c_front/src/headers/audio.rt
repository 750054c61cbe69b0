// audio.h: sounds and channels.

pub const AUDIO: &str = "\
#ifndef AUDIO_H
#define AUDIO_H

void select_sound(int n)
{
    port_out(SPU_SelectedSound, n);
}

void select_channel(int n)
{
    port_out(SPU_SelectedChannel, n);
}

// whether the selected sound plays with a loop: 0 or 1
void set_sound_loop(int on)
{
    port_out(SPU_SoundPlayWithLoop, on);
}

// only a stopped channel takes a sound
void assign_channel_sound(int c, int s)
{
    select_channel(c);
    port_out(SPU_ChannelAssignedSound, s);
}

void play_channel(int c)
{
    select_channel(c);
    port_out(SPU_Command, 0x30);
}

void pause_channel(int c)
{
    select_channel(c);
    port_out(SPU_Command, 0x31);
}

void stop_channel(int c)
{
    select_channel(c);
    port_out(SPU_Command, 0x32);
}

void stop_all_channels()
{
    port_out(SPU_Command, 0x35);
}

// 0x40 stopped, 0x41 paused, 0x42 playing
int get_channel_state(int c)
{
    select_channel(c);
    return port_in(SPU_ChannelState);
}

void play_sound_in_channel(int s, int c)
{
    stop_channel(c);
    assign_channel_sound(c, s);
    play_channel(c);
}

// the channel that plays the sound: the first stopped one; -1 where none is
int play_sound(int s)
{
    for (int c = 0; c < 16; c++)
    {
        if (get_channel_state(c) == 0x40)
        {
            play_sound_in_channel(s, c);
            return c;
        }
    }
    return -1;
}

#endif
";
